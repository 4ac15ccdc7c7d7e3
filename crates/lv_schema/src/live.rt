//! Live snapshots, whoever keeps them.
ghost use Rattle.std.specs.Prelude.{◌≡◌, ◌≤◌, ℕ, Bool, false};

/// What knows the snapshots of the live transactions.
pub trait Live {
    ghost inside: { Self → ℕ → ℕ → Bool };

    /// Whether a live snapshot is at or above the one number and below the other.
    fn inside(&self, from: u64, below: u64) -> bool
        ensures { result ≡ inside self.now from below };

    /// Where no live snapshot is in a range, none is in a narrower one.
    ghost narrower: { (live : Self) (from below less : ℕ) → less ≤ below → inside live from below ≡ false → inside live from less ≡ false };
}
