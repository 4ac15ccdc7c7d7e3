//! The numbers of faults.
ghost use Rattle.std.specs.Prelude.{◌≡◌};
ghost use Rattle.lv_make.specs.Summary as spec;

use lv_schema::Fault;

/// The number under which a fault is shown, 1 to 18.
pub(crate) fn fault_number(fault: &Fault) -> u64
    ensures { result ≡ spec.fault_number fault.now }
{
    match fault {
        Fault::Syntax { .. } => 1,
        Fault::Unknown { .. } => 2,
        Fault::Ambiguous { .. } => 3,
        Fault::InUse { .. } => 4,
        Fault::Kinds { .. } => 5,
        Fault::Limit { .. } => 6,
        Fault::Profile { .. } => 7,
        Fault::NotSetup => 8,
        Fault::InTransaction => 9,
        Fault::NoTransaction => 10,
        Fault::KeyAssigned { .. } => 11,
        Fault::Range { .. } => 12,
        Fault::Duplicate { .. } => 13,
        Fault::TableFull { .. } => 14,
        Fault::Conflict { .. } => 15,
        Fault::MergedFull { .. } => 16,
        Fault::Store => 17,
        Fault::JournalFull { .. } => 18,
    }
}
