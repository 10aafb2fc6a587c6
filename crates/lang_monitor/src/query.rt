//! Queries: what is asked of the body of a block.

use base_list::Seq;
use logic_linear::Formula;

/// Whether the formula `post` is true after the body of a block wherever each hypothesis is true
/// before it. The block is a number from 0.
#[derive(Debug, Drop)]
pub struct Query {
    pub hyps: Seq<Formula>,
    pub block: u32,
    pub post: Formula,
}
