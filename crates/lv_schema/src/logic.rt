//! Three-valued logic.
ghost use Rattle.std.specs.Prelude.{◌≡◌};
ghost use Rattle.lv_schema.specs.Truth.{opposite, both, either, is_yes};

/// What a condition says of a tuple, in SQL's three-valued logic.
#[derive(Clone, Copy, Debug, PartialEq, Eq)]
pub enum Truth {
    No,
    Unknown,
    Yes,
}

impl Truth {
    /// NOT.
    pub fn opposite(self) -> Truth
        ensures { result ≡ opposite self }
    {
        match self {
            Truth::No => Truth::Yes,
            Truth::Unknown => Truth::Unknown,
            Truth::Yes => Truth::No,
        }
    }

    /// AND.
    pub fn both(self, other: Truth) -> Truth
        ensures { result ≡ both self other }
    {
        match (self, other) {
            (Truth::No, _) | (Truth::Unknown, Truth::No) => Truth::No,
            (Truth::Yes, b) => b,
            (Truth::Unknown, _) => Truth::Unknown,
        }
    }

    /// OR.
    pub fn either(self, other: Truth) -> Truth
        ensures { result ≡ either self other }
    {
        match (self, other) {
            (Truth::Yes, _) | (Truth::Unknown, Truth::Yes) => Truth::Yes,
            (Truth::No, b) => b,
            (Truth::Unknown, _) => Truth::Unknown,
        }
    }

    /// Whether a tuple of which this is said is kept.
    pub fn is_yes(self) -> bool
        ensures { result ≡ is_yes self }
    {
        match self {
            Truth::Yes => true,
            Truth::No | Truth::Unknown => false,
        }
    }
}
