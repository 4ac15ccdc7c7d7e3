//! Faults 8 to 10: what a session may not do now.
ghost use Rattle.std.specs.Prelude.{◌≡◌};
ghost use Rattle.lv_bind.specs.Rights.{outside_setup, in_transaction, no_transaction};
ghost use Rattle.lv_bind.specs.Sources.{first};

use lv_parser::Stmt;
use lv_schema::Fault;

/// Fault 8: CREATE by a session other than the setup.
pub(crate) fn outside_setup(setup: bool, stmt: &Stmt) -> Option<Fault>
    ensures { result ≡ first (outside_setup setup stmt.now) }
{
    match stmt {
        Stmt::CreateTable { .. } | Stmt::CreateView { .. } if !setup => Some(Fault::NotSetup),
        _ => None,
    }
}

/// Fault 9: BEGIN, or CREATE in the setup, where a transaction is live.
pub(crate) fn in_transaction(setup: bool, live: bool, stmt: &Stmt) -> Option<Fault>
    ensures { result ≡ first (in_transaction setup live stmt.now) }
{
    match stmt {
        Stmt::CreateTable { .. } | Stmt::CreateView { .. } if setup && live => Some(
            Fault::InTransaction,
        ),
        Stmt::Begin if live => Some(Fault::InTransaction),
        _ => None,
    }
}

/// Fault 10: COMMIT or ROLLBACK where no transaction is live.
pub(crate) fn no_transaction(live: bool, stmt: &Stmt) -> Option<Fault>
    ensures { result ≡ first (no_transaction live stmt.now) }
{
    match stmt {
        Stmt::Commit | Stmt::Rollback if !live => Some(Fault::NoTransaction),
        _ => None,
    }
}
