//! The outside: files by name, and sinks.
//!
//! [`Files`] gives the bytes of a name and [`Sink`] takes bytes. What a caller may count on is said
//! by what a file holds, what a sink has taken, how much of that it has yet to hand on, and how
//! many faults rose; bytes as far as they are told. [`MemFiles`] and [`MemSink`] tell all of it,
//! and fail where they are asked to; [`GrowingSink`] does too, and fails for want of memory alone.
//! [`RealFiles`] and [`StdSink`] stand at the edge to the system, which tells no bytes.
//! [`write_whole`], [`write_piece`] and [`write_pieces`] write a whole text to a sink.
#![tactic(auto)]

mod files;
mod gathered;
mod growing_sink;
mod mem_files;
mod mem_sink;
mod real;
mod sink;
mod std_sink;
mod writer;

pub use files::{FileFault, Files};
pub use growing_sink::GrowingSink;
pub use lang_base::Name;
pub use mem_files::{MemFile, MemFiles};
pub use mem_sink::MemSink;
pub use real::RealFiles;
pub use sink::{Sink, SinkFailed, write_whole};
pub use std_sink::StdSink;
pub use writer::{write_piece, write_pieces};
