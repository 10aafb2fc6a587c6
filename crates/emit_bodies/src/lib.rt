//! The functions of the state in the Rust module of a monitor.
//!
//! Each block of a method has a function that runs its body, and where it waits one that tests its
//! guard: [`write_body`] and [`write_guard`] write them, as `specs/Bodies` and `specs/Guards` say.
//! A body stops at the first value that needs more than 64 bits, and then nothing is changed: where
//! a field may be assigned before, it works on a copy of the state (`specs/Traces`). [`fails`] says
//! whether a body may stop. One that is whole, of which it is known that no value leaves 64 bits,
//! tests none, and [`shortens`] says whether it has such a value in 128 bits. The other calls write
//! parts that methods have too (`specs/Blocks`). No two of the names that blocks have become one
//! ([`block_names_stay_apart`], `specs/Laws`).
#![tactic(auto)]

mod blocks;
mod bodies;
mod depth;
mod guards;
mod laws;
mod statements;
mod traces;

pub use blocks::{kind_bytes, kind_declared, lending_bytes, write_block_name, write_parameters};
pub use bodies::{fails, shortens, write_arrow, write_body};
pub use guards::write_guard;
pub use laws::block_names_stay_apart;
