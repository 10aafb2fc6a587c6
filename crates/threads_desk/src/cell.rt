//! A cell: a place for one letter, and for what is told to it.

ghost use Rattle.std.specs.Prelude.{◌≡◌};

use crate::errand::Errand;
use crate::rule::Board;

/// A place for one letter, and for what is told to it.
#[derive(Drop)]
pub struct Cell<A, T, K, E: Errand<A, T, K>> {
    pub board: Board<A, T, K, E>,
    ghost words: { board.shared.table_id.words ≡ 1 },
    ghost slots: { board.shared.table_id.slots ≡ 1 },
}
