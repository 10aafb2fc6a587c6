//! Calls of the program over files and sinks in memory, and what is demanded of them.

use base_io::{MemFile, MemFiles, MemSink};
use base_list::Seq;
use expresso::{Status, expresso};
use lang_base::Name;
use std::alloc::{AllocError, Global};
use std::process::Abort;
use std::sync::Wait;
use std::thread::Threads;
use threads_pool::Gate;

/// How much a sink takes.
pub(crate) const ROOM: u64 = 1 << 20;

/// A call of the program: its words, what the files `m.mon` and `c.cl` hold, and which read fails.
#[derive(Clone, Copy)]
pub(crate) struct Call<'a> {
    pub(crate) words: &'a [&'a str],
    pub(crate) monitor: &'a [u8],
    pub(crate) clients: &'a [u8],
    pub(crate) failing_read: Option<u64>,
}

/// `expresso` on these words, where no read fails.
pub(crate) fn asked<'a>(words: &'a [&'a str], monitor: &'a [u8], clients: &'a [u8]) -> Call<'a> {
    Call {
        words,
        monitor,
        clients,
        failing_read: None,
    }
}

/// What a call answered, and what it wrote.
#[derive(Drop)]
pub(crate) struct Outcome {
    pub(crate) status: Status,
    pub(crate) text: Vec<u8>,
}

/// What the program answers to a call whose workers pass this gate, and what it writes.
pub(crate) fn outcome_of<G: Gate>(
    rt: &(impl Threads + Wait + Sync + AllocGlobal),
    call: &Call<'_>,
    gate: &G,
) -> Result<Outcome, AllocError> {
    let alloc = rt.alloc();
    let words = texts_of(alloc, call.words)?;
    let mut files = two_files(alloc, call)?;
    let mut out = MemSink::open(alloc, ROOM, Vec::new(alloc))?;
    let status = expresso(rt, alloc, &words, &mut files, &mut out, gate);
    Ok(Outcome {
        status,
        text: Vec::from_slice(alloc, out.bytes())?,
    })
}

/// Demands of a call whose workers pass this gate that it has this status, and writes exactly this
/// text.
pub(crate) fn answers_through<G: Gate>(
    rt: &(impl Abort + Threads + Wait + Sync + AllocGlobal),
    call: Call<'_>,
    gate: &G,
    status: Status,
    text: &[u8],
) -> Result<(), AllocError> {
    let outcome = outcome_of(rt, &call, gate)?;
    assert_eq!(rt; outcome.status, status);
    assert_eq!(rt; outcome.text.as_slice(), text);
    Ok(())
}

/// Demands this status of a call, and that what it writes begins and ends so.
pub(crate) fn begins_and_ends<G: Gate>(
    rt: &(impl Abort + Threads + Wait + Sync + AllocGlobal),
    call: Call<'_>,
    gate: &G,
    status: Status,
    ends: (&[u8], &[u8]),
) -> Result<(), AllocError> {
    let (first, last) = ends;
    let outcome = outcome_of(rt, &call, gate)?;
    assert_eq!(rt; outcome.status, status);
    assert!(rt; outcome.text.as_slice().starts_with(first));
    assert!(rt; outcome.text.as_slice().ends_with(last));
    Ok(())
}

fn listed(alloc: Global, call: Option<u64>) -> Result<Vec<u64>, AllocError> {
    let mut calls = Vec::new(alloc);
    if let Some(call) = call {
        calls.push(call)?;
    }
    Ok(calls)
}

fn mem_file(alloc: Global, name: &str, bytes: &[u8]) -> Result<MemFile, AllocError> {
    Ok(MemFile {
        name: Name::of(Vec::from_slice(alloc, name.as_bytes())?),
        bytes: Seq::of(Vec::from_slice(alloc, bytes)?),
    })
}

/// Words as the system gives them.
pub(crate) fn texts_of(alloc: Global, words: &[&str]) -> Result<Vec<String>, AllocError> {
    let mut texts = Vec::new(alloc);
    for word in words {
        texts.push(String::from_str(alloc, word)?)?;
    }
    Ok(texts)
}

/// The two files of a call in memory.
pub(crate) fn two_files(alloc: Global, call: &Call<'_>) -> Result<MemFiles, AllocError> {
    let mut held = Vec::new(alloc);
    held.push(mem_file(alloc, "m.mon", call.monitor)?)?;
    held.push(mem_file(alloc, "c.cl", call.clients)?)?;
    Ok(MemFiles::open(held, listed(alloc, call.failing_read)?))
}
