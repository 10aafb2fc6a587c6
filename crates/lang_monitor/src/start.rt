//! With which values a monitor may be opened.

ghost use Rattle.std.specs.Prelude.{◌↔◌, IsTrue};
ghost use Rattle.lang_monitor.specs.Starts.{Admits};

/// Which numbers a parameter may have.
#[derive(Clone, Copy, Debug, PartialEq, Eq)]
pub enum Limit {
    Exactly { number: i128 },
    AtMost { bound: i128 },
    AtLeast { bound: i128 },
}

impl Limit {
    /// Whether a parameter with this limit may have the number.
    pub fn admits(self, number: i64) -> bool
        ensures { IsTrue result ↔ Admits self number }
    {
        let number = i128::from(number);
        match self {
            Limit::Exactly { number: only } => number == only,
            Limit::AtMost { bound } => number <= bound,
            Limit::AtLeast { bound } => bound <= number,
        }
    }
}

/// Whence a field has its value at the start: it is its own, it is chosen when the monitor is
/// opened, or it is that of the parameter with this number among the fields.
#[derive(Clone, Copy, Debug, PartialEq, Eq)]
pub enum Origin {
    Own,
    Chosen(Limit),
    Copied(u32),
}
