//! The disk that the words name.
ghost use Rattle.std.specs.Prelude.{◌≡◌, ◌≤◌, ◌<◌, ◌-◌, ◌^◌, ℕ, List, Some, Err, IfOk};
ghost use Rattle.std.specs.Option.{option_map};
ghost use Rattle.lv_outside.specs.Causes.{Rose};
ghost use Rattle.lv_outside.specs.Opening.{handed_out, turned_away};

use crate::words::Words;
use lv_outside::{Disks, OpenFault};
use lv_values::Text;

/// The path of the journal.
fn path_of(words: &Words) -> Option<&Text>
    ensures { option_map (λ p. p.now) result ≡ words.now.log }
{
    match &words.log {
        Some(path) => Some(path),
        None => None,
    }
}

impl Words {
    /// Has the disk of the journal's path handed out, or that of no path where the words name none. It answers what
    /// `Disks::open_disk` does.
    pub fn open_disk<O: Disks>(&self, disks: &mut O) -> Result<O::Disk, OpenFault>
        requires { (O.openings disks.old).asked < 2 ^ 64 - 1 }
        ensures bytes { IfOk result (λ d. (f : List ℕ) → O.holds disks.old self.now.log ≡ Some f → O.Disk.seen d ≡ Some f) }
        ensures opened { IfOk result (λ d. O.openings disks.new ≡ handed_out (O.openings disks.old) self.now.log (O.Disk.failures d)) }
        ensures failed { result ≡ Err OpenFault.Failed → O.openings disks.new ≡ turned_away (O.openings disks.old) self.now.log }
        ensures unasked { result ≡ Err OpenFault.NoMemory → O.openings disks.new ≡ O.openings disks.old }
        ensures cause { result ≡ Err OpenFault.Failed → Rose (O.failures disks.old) (O.failures disks.new) }
        ensures later { O.failures disks.old ≤ O.failures disks.new }
    {
        disks.open_disk(path_of(self))
    }
}
