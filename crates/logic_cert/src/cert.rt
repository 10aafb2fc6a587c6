//! Certificates.

use base_list::{Boxed, Seq};
use logic_linear::Lin;

/// A made row: so many times one row and so many times another.
#[derive(Clone, Copy, Debug, PartialEq, Eq)]
pub struct Combine {
    pub left: u32,
    pub left_times: i128,
    pub right: u32,
    pub right_times: i128,
}

/// Why a formula is true nowhere.
#[derive(Debug, Drop)]
pub enum Cert {
    /// Of each part of an any, why it isn't true with what was gathered.
    Split(Seq<Cert>),
    /// Two gathered literals are a flag with opposite truths.
    Clash {
        left: u32,
        right: u32,
    },
    /// Rows made of gathered ones and of each other, the last of which is a positive number.
    Chain(Seq<Combine>),
    /// Why it isn't true where the form's value is at most 0, and why not where it is at least 1.
    Cases {
        form: Lin,
        below: Boxed<Cert>,
        above: Boxed<Cert>,
    },
}

/// A row or a flag that was gathered.
#[derive(Debug, Drop)]
pub enum Literal {
    /// The form's value is at most 0.
    Row(Lin),
    /// The truth value at the place is this one.
    Flag { place: u32, is: bool },
}
