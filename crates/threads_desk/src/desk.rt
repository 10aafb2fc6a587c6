//! A row of cells.

ghost use Rattle.std.specs.Prelude.{◌≡◌, IfOk, length};
ghost use Rattle.std.specs.List.{All};
ghost use Rattle.crossbeam_utils.specs.Padded.{padded_value};
ghost use Rattle.threads_desk.specs.Letters.{about_of};
ghost use Rattle.threads_desk.specs.declared.desk.TheConstants.{CELLS};

use crate::cell::Cell;
use crate::errand::Errand;
use crossbeam_utils::CachePadded;
use std::alloc::{AllocError, Global};
use std::snapshot::Snapshot;

/// How many cells a desk has.
pub const CELLS: usize = 256;

/// A row of cells, all opened about the same, each on cache lines of its own: threads that post and
/// take letters of tickets that follow each other don't take the lines from one another.
#[derive(Drop)]
pub struct Desk<A, T, K, E: Errand<A, T, K>> {
    cells: Vec<CachePadded<Cell<A, T, K, E>>>,
    pub about: Snapshot<K>,
    ghost row: { length cells.items ≡ CELLS },
    ghost same: { All (λ cell. about_of (padded_value cell) ≡ about.value) cells.items },
}

impl<A: Drop, T: Drop, K, E: Errand<A, T, K>> Desk<A, T, K, E> {
    /// A desk with no letters. It takes all memory that the desk will need, and fails only for want
    /// of memory.
    pub fn open(alloc: Global, about: &K) -> Result<Desk<A, T, K, E>, AllocError>
        ensures about { IfOk result (λ desk. desk.about.value ≡ about.now) }
    {
        let mut cells = Vec::with_capacity(alloc, CELLS)?;
        for _ in 0..CELLS {
            cells.push_reserved(CachePadded::new(Cell::open(alloc, about)?));
        }
        let about = Snapshot::of(about);
        Ok(Desk { cells, about })
    }
}

impl<A, T, K, E: Errand<A, T, K>> Desk<A, T, K, E> {
    /// The cell of a number. Numbers that are so far apart as there are cells share one.
    pub fn cell(&self, number: u64) -> &Cell<A, T, K, E>
        ensures about { result.now.board.shared.key ≡ self.now.about.value }
    {
        &self.cells[(number % CELLS as u64) as usize]
    }
}
