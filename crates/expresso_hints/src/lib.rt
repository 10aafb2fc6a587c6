//! The top call with a second output, for hints.
//!
//! [`expresso_with_hints`] is the call [`expresso::expresso`], and promises the same of files and
//! of the first output. Where words or files are refused it writes to the second one what is likely
//! wrong (`front_hint`): of words ahead of the usage, of files after the line that refuses them.
#![tactic(auto)]

mod naming;

ghost use Rattle.std.specs.Prelude.{map};
ghost use Rattle.std.specs.String.{string_bytes};
ghost use Rattle.front_command.specs.CommandLine.{MayReadFiles};
ghost use Rattle.expresso.specs.Headline.{Headline};
ghost use Rattle.expresso.specs.ProgramEnds.{KeepsFiles, ProgramEnds};

use crate::naming::{help_with_words, named_in};
use base_io::{Files, Sink};
use expresso::{Status, expresso};
use front_help::{KeptFiles, Names, help_with_reading, help_with_refusal};
use std::alloc::Global;
use std::sync::Wait;
use std::thread::Threads;
use threads_pool::Gate;

/// Does what [`expresso`] does with these words, files, output and gate, and promises the same of
/// it. Beside it hints are written to `hints`: what is likely wrong of words that are no command,
/// ahead of the usage; and of a file that is refused or couldn't be read, after the line that says
/// so, the line of the place with a caret below, and a hint. `names` says of a name whether it is
/// a folder or nothing.
///
/// A hint changes nothing of the status and of `out`: where `hints` fails or memory is short, less
/// of it is written.
pub fn expresso_with_hints<R: Threads + Wait + Sync, F: Files, N: Names, S: Sink, H: Sink, G: Gate>(
    rt: &R,
    alloc: Global,
    words: &Vec<String>,
    files: &mut KeptFiles<F>,
    names: &N,
    out: &mut S,
    hints: &mut H,
    gate: &G,
) -> Status
    // The files that the words name may be read; of no other name is this known.
    requires { MayReadFiles (F.may_read files.old.files) (map string_bytes words.now.items) }
    // What `run` and `block` promise.
    ensures headline { Headline (map string_bytes words.now.items)
        (F.seen files.old.files) result (S.seen out.old) (S.seen out.new) }
    // What each status promises.
    ensures ended { ProgramEnds (map string_bytes words.now.items)
        (F.seen files.old.files) (F.seen files.new.files) result
        (S.seen out.old) (S.seen out.new) }
    ensures files { KeepsFiles (F.seen files.old.files) (F.seen files.new.files)
        (F.may_read files.old.files) (F.may_read files.new.files) }
{
    help_with_words(alloc, words.as_slice(), hints);
    let status = expresso(rt, alloc, words, files, out, gate);
    help_with_files(alloc, words.as_slice(), status, files, names, hints);
    status
}

/// Writes what is wrong of the files of these words, by the status that they came to.
fn help_with_files<F, N: Names, H: Sink>(
    alloc: Global,
    words: &[String],
    status: Status,
    files: &KeptFiles<F>,
    names: &N,
    hints: &mut H,
) {
    let Some(named) = named_in(alloc, words) else {
        return;
    };
    match status {
        Status::Refused => help_with_refusal(alloc, named, files, hints),
        Status::ReadFault => help_with_reading(named, files, names, hints),
        _ => {}
    }
}
