//! Calls of the program over files and a sink in memory.

use base_io::{MemFile, MemFiles, MemSink};
use base_list::Seq;
use expresso::{Status, expresso};
use lang_base::Name;
use std::alloc::{AllocError, Global};
use std::sync::Wait;
use std::thread::Threads;
use threads_pool::OpenGate;

/// A file in memory, or a text that rows name.
#[derive(Drop)]
pub(crate) struct File {
    pub(crate) name: String,
    pub(crate) bytes: Vec<u8>,
}

/// What a call must print.
#[derive(Drop)]
pub(crate) enum Wanted {
    /// Just these bytes.
    Whole(Vec<u8>),
    /// These bytes first, then so many lines, or any, and then these bytes.
    Ends {
        first: Vec<u8>,
        between: Option<u64>,
        last: Vec<u8>,
    },
}

/// A call of the program, and what is wanted of it.
#[derive(Drop)]
pub(crate) struct Call {
    /// The line of the table that says what is wanted.
    pub(crate) line: u64,
    pub(crate) words: Vec<String>,
    pub(crate) status: Status,
    pub(crate) wanted: Wanted,
    /// The name of the file that has what was printed, from then on.
    pub(crate) into: Option<String>,
}

/// Which calls of the files and of the sink fail, and how much the sink takes.
#[derive(Clone, Copy)]
pub(crate) struct Devices {
    pub(crate) failing_read: Option<u64>,
    pub(crate) failing_write: Option<u64>,
    pub(crate) room: u64,
}

/// Devices that never fail.
pub(crate) const SOUND: Devices = Devices {
    failing_read: None,
    failing_write: None,
    room: 1 << 20,
};

/// What a call answered, and what it printed.
#[derive(Drop)]
pub(crate) struct Outcome {
    pub(crate) status: Status,
    pub(crate) text: Vec<u8>,
}

/// What the program answers to these words over these files and devices, and what it prints.
pub(crate) fn outcome_of(
    rt: &(impl Threads + Wait + Sync + AllocGlobal),
    words: &Vec<String>,
    files: &[File],
    devices: Devices,
) -> Result<Outcome, AllocError> {
    let alloc = rt.alloc();
    let mut held = MemFiles::open(copies(alloc, files)?, listed(alloc, devices.failing_read)?);
    let mut out = MemSink::open(alloc, devices.room, listed(alloc, devices.failing_write)?)?;
    let status = expresso(rt, alloc, words, &mut held, &mut out, &OpenGate);
    Ok(Outcome {
        status,
        text: Vec::from_slice(alloc, out.bytes())?,
    })
}

fn copies(alloc: Global, files: &[File]) -> Result<Vec<MemFile>, AllocError> {
    let mut copies = Vec::new(alloc);
    for file in files {
        copies.push(MemFile {
            name: Name::of(Vec::from_slice(alloc, file.name.as_bytes())?),
            bytes: Seq::of(Vec::from_slice(alloc, file.bytes.as_slice())?),
        })?;
    }
    Ok(copies)
}

fn listed(alloc: Global, call: Option<u64>) -> Result<Vec<u64>, AllocError> {
    let mut calls = Vec::new(alloc);
    if let Some(call) = call {
        calls.push(call)?;
    }
    Ok(calls)
}
