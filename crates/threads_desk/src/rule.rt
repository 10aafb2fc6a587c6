//! The rule of a cell, and what each step tells whoever makes it.

use crate::errand::Errand;
use crate::letter::{Sheet, View};
use atomic_table::{Play, Table, TableRule};
use std::alloc::Global;
use std::marker::PhantomData;

/// The word that says how the letter stands.
pub const STANDING: usize = 0;
/// The slot of the letter.
pub const SHEET: usize = 0;

/// There is no letter.
pub const FREE: u64 = 0;
/// Whoever posts or takes back a letter has the cell.
pub const WRITING: u64 = 1;
/// A letter is posted.
pub const ASKED: u64 = 2;
/// Whoever answers has the letter.
pub const TAKEN: u64 = 3;
/// The letter is answered.
pub const TOLD: u64 = 4;

/// What holds between any two steps.
pub struct Standing<E> {
    errand: PhantomData<E>,
}

impl<A, T, K, E: Errand<A, T, K>> TableRule<Option<Sheet<A, T>>, View<A, T, K>, K> for Standing<E> {
    ghost use Rattle.threads_desk.specs.inner.Cells.{Kept, newcomer};

    ghost holds = { Kept E.asks E.tells };

    ghost first = { newcomer };
}

/// A seat comes that wants to post a letter.
pub struct Come;

impl<A, T, K> Play<Option<Sheet<A, T>>, View<A, T, K>> for Come {
    ghost use Rattle.threads_desk.specs.inner.Steps.{Came};

    ghost then = { Came };
}

/// A seat comes that wants to take a letter.
pub struct Seek;

impl<A, T, K> Play<Option<Sheet<A, T>>, View<A, T, K>> for Seek {
    ghost use Rattle.threads_desk.specs.inner.Steps.{Sought};

    ghost then = { Sought };
}

/// The cell is had for a letter, if it was free.
pub struct Begin;

impl<A, T, K> Play<Option<Sheet<A, T>>, View<A, T, K>> for Begin {
    ghost use Rattle.threads_desk.specs.inner.Steps.{Began};

    ghost then = { Began };
}

/// A letter is posted.
pub struct Post;

impl<A, T, K> Play<Option<Sheet<A, T>>, View<A, T, K>> for Post {
    ghost use Rattle.threads_desk.specs.inner.Steps.{Wrote};

    ghost then = { Wrote };
}

/// The answer is had, if there is one.
pub struct Look<E> {
    errand: PhantomData<E>,
}

impl<A, T, K, E: Errand<A, T, K>> Play<Option<Sheet<A, T>>, View<A, T, K>> for Look<E> {
    ghost use Rattle.threads_desk.specs.inner.Steps.{Looked};

    ghost then = { Looked E.tells };
}

/// The letter is had back, if nobody took it.
pub struct Withdraw;

impl<A, T, K> Play<Option<Sheet<A, T>>, View<A, T, K>> for Withdraw {
    ghost use Rattle.threads_desk.specs.inner.Steps.{Withdrew};

    ghost then = { Withdrew };
}

/// A letter is had, if one is posted.
pub struct Take<E> {
    errand: PhantomData<E>,
}

impl<A, T, K, E: Errand<A, T, K>> Play<Option<Sheet<A, T>>, View<A, T, K>> for Take<E> {
    ghost use Rattle.threads_desk.specs.inner.Steps.{Took};

    ghost then = { Took E.asks };
}

/// The letter is answered by what the slot has, which is given back.
pub struct Deliver;

impl<A, T, K> Play<Option<Sheet<A, T>>, View<A, T, K>> for Deliver {
    ghost use Rattle.threads_desk.specs.inner.Steps.{Delivered};

    ghost then = { Delivered };
}

/// The slot is given back, and the cell is free.
pub struct Leave;

impl<A, T, K> Play<Option<Sheet<A, T>>, View<A, T, K>> for Leave {
    ghost use Rattle.threads_desk.specs.inner.Steps.{Left};

    ghost then = { Left };
}

/// The word, the slot and the rule.
pub type Board<A, T, K, E> = Table<Option<Sheet<A, T>>, View<A, T, K>, K, Standing<E>, Global>;
