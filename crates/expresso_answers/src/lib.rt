//! What each command answers, and what several commands do before they answer.
//!
//! `specs/Answers` says what each command of the program prints, by the bytes of its files, and
//! which line refuses them; `specs/Ending` how the work of a command ends. [`monitor_of`],
//! [`text_of`], [`open_both`] and [`input_of`] read the files of a command, and write the line of
//! the first fault of those that aren't accepted. [`plan_of`] makes the plan that is asked for, of
//! the one that [`placed_of`] makes, and [`counting_of`] a counted one with its certificates.
//! [`finish`] gives the status of a text that was written, and [`show_fault`] writes the line of a
//! fault. `specs/Exit` says which number stands for a [`Status`].
//!
//! The laws of `laws` say that bytes stand for one monitor and one list of clients, and that what
//! holds for every choice (`specs/Choices`) holds of a monitor as it stands.
#![tactic(auto)]

mod client_file;
mod input;
mod laws;
mod monitor_file;
mod placement;
mod reading;
mod status;
mod text;

pub use input::{Input, MonitorText, Opened, input_of, monitor_of, open_both, text_of};
pub use laws::{accepts_one_client_list, accepts_one_monitor, own_start_is_a_choice};
pub use monitor_file::MonitorFile;
pub use placement::{Counting, counting_of, placed_of, plan_of};
pub use reading::OTHER_BYTES;
pub use status::{Status, exit_status};
pub use text::{finish, show_fault};
