//! `expresso emit FILE`.

ghost use Rattle.front_command.specs.CommandLine.{emit};
ghost use Rattle.expresso_answers.specs.Ending.{CommandEnds, KeepsFiles};

use crate::text::show_module;
use base_io::{Files, Sink};
use emit_code::counted_code_loses_none;
use emit_fits::{fitting_blocks_never_overflow, moments_stay_in_64};
use emit_numbers::{printed_bodies_step, printed_numbers_are_wide, printed_tests_hold};
use expresso_answers::{Status, plan_of, text_of};
use front_command::PlanChoice;
use lang_monitor::monitors_may_be_opened;
use machine_events::lawful_for_every_choice;
use plan_fits::whole_blocks;
use std::alloc::{AllocError, Global};

/// Compiles a monitor file and writes its Rust module under the counted plan, or the line of its
/// first fault. Blocks that are proved to keep 64 bits are printed whole.
pub(crate) fn emit_file<F: Files, S: Sink>(
    alloc: Global,
    file: &str,
    files: &mut F,
    out: &mut S,
) -> Status
    requires { F.may_read files.old file.now }
    ensures ended { CommandEnds (emit file.now)
        (F.seen files.old) (F.seen files.new) result (S.seen out.old) (S.seen out.new) }
    ensures files { KeepsFiles (F.seen files.old) (F.seen files.new)
        (F.may_read files.old) (F.may_read files.new) }
{
    monitors_may_be_opened();
    lawful_for_every_choice();
    counted_code_loses_none();
    printed_bodies_step();
    printed_tests_hold();
    printed_numbers_are_wide();
    moments_stay_in_64();
    fitting_blocks_never_overflow();
    let text = match text_of(alloc, file, files, out) {
        Ok(text) => text,
        Err(status) => return status,
    };
    let found = &text.found;
    let plan = match plan_of(alloc, &found.monitor, PlanChoice::Counted) {
        Ok(plan) => plan,
        Err(AllocError) => return Status::OutOfMemory,
    };
    match whole_blocks(alloc, &found.monitor, plan.kept.items()) {
        Ok(whole) => {
            let whole = whole.as_slice();
            show_module(&text.bytes, &found.tree, &found.monitor, &plan, whole, out)
        }
        Err(AllocError) => Status::OutOfMemory,
    }
}
