//! `expresso check FILE`.

ghost use Rattle.front_command.specs.CommandLine.{check};
ghost use Rattle.expresso_answers.specs.Ending.{CommandEnds, KeepsFiles};

use crate::text::show_tree;
use base_io::{Files, Sink};
use expresso_answers::{Status, monitor_of};
use std::alloc::Global;

/// Checks a monitor file and writes its canonical form, or the line of its first fault.
pub(crate) fn check_file<F: Files, S: Sink>(
    alloc: Global,
    file: &str,
    files: &mut F,
    out: &mut S,
) -> Status
    requires { F.may_read files.old file.now }
    ensures ended { CommandEnds (check file.now)
        (F.seen files.old) (F.seen files.new) result (S.seen out.old) (S.seen out.new) }
    ensures files { KeepsFiles (F.seen files.old) (F.seen files.new)
        (F.may_read files.old) (F.may_read files.new) }
{
    match monitor_of(alloc, file, files, out) {
        Ok(found) => show_tree(&found.tree, out),
        Err(status) => status,
    }
}
