//! Why reading stopped.
ghost use Rattle.lv_reading.specs.declared.stop.Stop.TheVariants.{NoMemory};
ghost use Rattle.std.specs.Prelude.{◌≡◌};

/// Why reading stopped.
#[derive(Clone, Copy, Debug, PartialEq, Eq)]
pub enum Stop {
    /// The bytes are not what is read.
    Bad,
    /// Memory was refused.
    NoMemory,
}

impl From<lv_values::NoMemory> for Stop {
    ghost from_gives = { λ _ e. e ≡ NoMemory };

    fn from(_: lv_values::NoMemory) -> Stop {
        Stop::NoMemory
    }
}
