//! Letters, and who has a part in one.

use atomic_table::Seat;

/// What lies in a cell.
#[derive(Drop)]
pub enum Sheet<A, T> {
    Asked(A),
    Told(T),
}

/// What a seat at a cell has to do with its letter. No value is made: contracts alone speak of it.
pub enum Part<A, T> {
    Nothing,
    /// It has the cell, and may write a letter.
    Writing,
    /// It posted this letter.
    Posted(A),
    /// It has what was told to its letter.
    Reading,
    /// It took this letter, and owes an answer.
    Serving(A),
    /// It answered this letter by this.
    Answered(A, T),
    /// It had the cell, and freed it.
    Gone,
}

/// What a seat at a cell knows. No value is made: contracts alone speak of it.
pub struct View<A, T, K> {
    /// What the desk was opened about.
    pub about: K,
    pub part: Part<A, T>,
    /// How many of its steps found the cell otherwise than they wanted it.
    pub misses: u64,
    /// The word that the last of them found.
    pub found: u64,
}

/// A seat at a cell.
pub type Spot<A, T, K> = Seat<Option<Sheet<A, T>>, View<A, T, K>>;

/// The right to what is told to a letter. It can't be dropped: collect the answer, or take the
/// letter back.
pub struct Mail<A, T, K> {
    pub(crate) seat: Spot<A, T, K>,
}

/// A letter that was taken. It can't be dropped: answer it.
pub struct Task<A, T, K> {
    pub(crate) seat: Spot<A, T, K>,
}

/// It shows that a step found its cell otherwise than it wanted it.
#[derive(Drop)]
pub struct Miss<A, T, K> {
    pub(crate) seat: Spot<A, T, K>,
}

/// It shows that a letter was answered in its cell.
#[derive(Drop)]
pub struct Done<A, T, K> {
    pub(crate) seat: Spot<A, T, K>,
}

/// It shows that a cell was freed by whoever had posted a letter there.
#[derive(Drop)]
pub struct Free<A, T, K> {
    pub(crate) seat: Spot<A, T, K>,
}
