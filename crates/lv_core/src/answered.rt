//! What a statement is answered.
ghost use Rattle.std.specs.Prelude.{◌≡◌, []};
ghost use Rattle.lv_store.specs.Answering.{effect_fault};
ghost use Rattle.lv_engine.specs.Alone.{alone_fault};
ghost use Rattle.lv_engine.specs.Answering.{commit_fault, create_fault};
ghost use Rattle.lv_core.specs.Answering.{IsRefusal};

use lv_effect::EffectFault;
use lv_engine::{AloneFault, CommitFault, CreateFault};
use lv_plain::Reply;
use lv_schema::{Fault, ForcedSteps};
use lv_values::NoMemory;
use std::alloc::Global;

/// What a statement is answered: the steps that it forces, and its reply.
#[derive(Drop)]
pub struct Answered {
    pub forced: ForcedSteps,
    pub reply: Reply,
}

/// A reply to a statement that forces no step. It takes no memory.
pub fn replied(alloc: Global, reply: Reply) -> Answered
    ensures forced { result.forced ≡ [] }
    ensures reply { result.reply ≡ reply }
{
    Answered {
        forced: ForcedSteps::new(alloc),
        reply,
    }
}

/// Why a change is refused; none where memory was.
pub fn fault_of_change(fault: EffectFault) -> Option<Fault>
    ensures { result ≡ effect_fault fault }
{
    match fault {
        EffectFault::Stmt(fault) => Some(fault),
        EffectFault::NoMemory => None,
    }
}

/// Why a commit is refused; none where memory was.
pub fn fault_of_commit(fault: CommitFault) -> Option<Fault>
    ensures { result ≡ commit_fault fault }
{
    match fault {
        CommitFault::Conflict(conflict) => Some(Fault::Conflict {
            table: conflict.table,
            key: conflict.key,
            commit: conflict.commit,
        }),
        CommitFault::TableFull { table } => Some(Fault::MergedFull { table }),
        CommitFault::Full { need, limit } => Some(Fault::JournalFull { need, limit }),
        CommitFault::Store => Some(Fault::Store),
        CommitFault::NoMemory => None,
    }
}

/// Why a table, a view or a mark is refused; none where memory was.
pub fn fault_of_create(fault: CreateFault) -> Option<Fault>
    ensures { result ≡ create_fault fault }
{
    match fault {
        CreateFault::Full { need, limit } => Some(Fault::JournalFull { need, limit }),
        CreateFault::Store => Some(Fault::Store),
        CreateFault::NoMemory => None,
    }
}

/// Why a change outside a transaction is refused; none where memory was.
pub fn fault_of_alone(fault: AloneFault) -> Option<Fault>
    ensures { result ≡ alone_fault fault }
{
    match fault {
        AloneFault::Change(fault) => fault_of_change(fault),
        AloneFault::Record(fault) => fault_of_create(fault),
    }
}

/// The reply that tells why a statement is not done; want of memory where there is no reason.
pub fn refusal(alloc: Global, fault: Option<Fault>) -> Result<Answered, NoMemory>
    ensures { IsRefusal fault result }
{
    match fault {
        Some(fault) => Ok(replied(alloc, Reply::Refused(fault))),
        None => Err(NoMemory),
    }
}
