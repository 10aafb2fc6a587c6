//! Texts put on a sink piece by piece, where a failure is looked at once, at the end.
//!
//! A [`Pen`] remembers that a write failed, and then writes nothing more. So what puts a text on it
//! is one call after the other, with no `?` between them, and composes by one lemma
//! (`proofs/Putting`). The call that made the pen answers what came of the whole text.
#![tactic(auto)]

mod pen;

pub use pen::Pen;
