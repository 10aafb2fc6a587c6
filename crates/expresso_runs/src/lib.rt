//! The commands that run clients.
//!
//! `turns` runs them by rounds of the implicit machine ([`take_turns`]), and `simulate` by a
//! schedule of sections ([`simulate_files`]). `run` has workers run them in threads
//! ([`run_files`]), and `block` a caller for each client ([`block_files`]). `stress` has workers
//! run a large input that is made of a number ([`run_large`]).
//!
//! Each call ends as `CommandEnds` of `expresso_answers` says of its command. The laws of `laws`
//! say that a schedule has one simulation, and of a monitor none of whose claims is hard, one text.
#![tactic(auto)]

mod block;
mod laws;
mod run;
mod simulate;
mod stress;
mod text;
mod turns;

pub use block::block_files;
pub use laws::{one_simulated_text, one_simulation};
pub use run::run_files;
pub use simulate::simulate_files;
pub use stress::run_large;
pub use turns::take_turns;
