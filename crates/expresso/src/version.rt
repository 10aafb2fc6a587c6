//! `expresso --version`.

ghost use Rattle.base_io.specs.Outside.{FilesSeen};
ghost use Rattle.front_command.specs.CommandLine.{version};
ghost use Rattle.expresso_answers.specs.Ending.{CommandEnds};

use crate::text::show_version;
use base_io::Sink;
use expresso_answers::Status;

/// Writes the program's name and version. It reads no file.
pub(crate) fn version<S: Sink>(out: &mut S) -> Status
    ensures { (files : FilesSeen) → CommandEnds version
        files files result (S.seen out.old) (S.seen out.new) }
{
    show_version(out)
}
