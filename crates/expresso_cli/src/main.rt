//! `expresso`: monitors with implicit signals.
//!
//! `main` hands the runtime, the words, the files of the system, standard output, standard error
//! for hints, and a gate that holds nobody to the top call,
//! [`expresso_hints::expresso_with_hints`], and gives the number of its status.
#![tactic(auto)]

mod outside;

use base_io::{RealFiles, StdSink};
use expresso::{Status, exit_status};
use expresso_hints::expresso_with_hints;
use front_help::KeptFiles;
use outside::{ErrorSink, RealNames};
use std::process::ExitCode;
use std::{env, io};
use threads_pool::OpenGate;

/// The exit status where the words can't be read: no number of a `Status`.
const UNREADABLE_WORDS: u8 = 7;

fn words_given<R: std::rt::Env + AllocGlobal>(rt: &R) -> io::Result<Vec<String>> {
    Ok(env::args(rt)?.collect(rt.alloc())?)
}

fn main(rt: HostRuntime) -> ExitCode {
    match words_given(&rt) {
        Ok(words) => {
            let mut files = KeptFiles::new(rt.alloc(), RealFiles::new(&rt));
            let names = RealNames::new(&rt);
            let mut out = StdSink::new(&rt);
            let mut hints = ErrorSink::new(rt.alloc(), rt.stderr());
            let status = expresso_with_hints(
                &rt,
                rt.alloc(),
                &words,
                &mut files,
                &names,
                &mut out,
                &mut hints,
                &OpenGate,
            );
            ExitCode::from(exit_status(status))
        }
        Err(error) if error.kind() == io::ErrorKind::OutOfMemory => {
            ExitCode::from(exit_status(Status::OutOfMemory))
        }
        Err(_) => ExitCode::from(UNREADABLE_WORDS),
    }
}
