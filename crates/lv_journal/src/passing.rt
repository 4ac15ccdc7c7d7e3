//! A write that is on the disk once it answers.
ghost use Rattle.std.specs.Prelude.{◌≤◌, ◌+◌, length, IfSome, OnOk};
ghost use Rattle.lv_outside.specs.Causes.{HasCause};
ghost use Rattle.lv_outside.specs.Images.{Holds, Torn, Told, OnlyTold, HasRoom, Spends};
ghost use Rattle.lv_journal.specs.Passing.{Passes};

use lv_outside::{Disk, Failed};

/// Writes a piece and syncs.
pub(crate) fn write_through<D: Disk>(disk: &mut D, at: u64, piece: &[u8]) -> Result<(), Failed>
    requires place { IfSome (D.seen disk.old) (λ f. at ≤ length f) }
    requires room { HasRoom (D.ready disk.old) 1 (length piece.now) (at + length piece.now) }
    ensures passes { Passes D.seen D.may_leave D.moment D.left_since (Torn at (length piece.now)) disk.old disk.new }
    ensures written { OnOk result (Told (Holds at piece.now) (D.seen disk.old) (D.seen disk.new)) }
    ensures durable { OnOk result (OnlyTold (D.seen disk.new) (D.may_leave disk.new)) }
    ensures room { Spends (D.ready disk.old) (D.ready disk.new) 1 (length piece.now) (at + length piece.now) }
    ensures cause { HasCause (D.failures disk.old) (D.failures disk.new) result }
{
    disk.write_at(at, piece)?;
    disk.sync()?;
    Ok(())
}
