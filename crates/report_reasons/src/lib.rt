//! The lines of reasons, written piece by piece to a sink.
//!
//! [`write_reasons`] writes, for each thing of a plan that costs something, a state in which it is
//! needed (`specs/ReasonText`), and [`write_broadcast_reasons`], for each broadcast of a block on a
//! counted condition, one in which a signal is not enough (`specs/BroadcastText`). The block that
//! runs there and the fields, [`write_running`] and [`write_fields`], serve other lines too. They
//! take no memory.
#![tactic(auto)]

mod broadcasts;
mod clients;
mod lines;
mod values;

pub use broadcasts::write_broadcast_reasons;
pub use clients::write_running;
pub use lines::write_reasons;
pub use values::write_fields;
