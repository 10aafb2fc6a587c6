//! Expresso as a library: the top call over files in memory, and a monitor that is compiled and
//! then run by sections, in an order of one's own.
#![tactic(auto)]

ghost use Rattle.std.specs.Prelude.{◌<◌, ◌↔◌, IsTrue, length};

use anyhow::{Context, Result};
use base_io::{MemFile, MemFiles, Sink, SinkFailed, StdSink};
use base_list::Seq;
use expresso::expresso;
use lang_base::Name;
use machine_explicit::FreeMonitor;
use plan_place::place;
use report_text::write_log;
use samples::{checked, scripts_read};
use std::alloc::{AllocError, Global};
use threads_pool::OpenGate;

const MONITOR: &[u8] = b"monitor Buffer {
  int count = 0;
  method put() waituntil (count < 1) { count = count + 1; }
  method get() waituntil (count > 0) { count = count - 1; }
}";

const CLIENTS: &[u8] = b"client A { put(); put(); } client B { get(); get(); }";

/// Whose sections are made, one after the other: B has to wait twice.
const ORDER: [u32; 6] = [1, 0, 1, 1, 0, 1];

fn texts(alloc: Global, words: &[&str]) -> Result<Vec<String>, AllocError> {
    let mut texts = Vec::new(alloc);
    for word in words {
        texts.push(String::from_str(alloc, word)?)?;
    }
    Ok(texts)
}

fn file(alloc: Global, name: &str, text: &[u8]) -> Result<MemFile, AllocError> {
    Ok(MemFile {
        name: Name::of(Vec::from_slice(alloc, name.as_bytes())?),
        bytes: Seq::of(Vec::from_slice(alloc, text)?),
    })
}

/// The two files, in memory.
fn files(alloc: Global) -> Result<MemFiles, AllocError> {
    let mut files = Vec::new(alloc);
    files.push(file(alloc, "buffer.mon", MONITOR)?)?;
    files.push(file(alloc, "two.cl", CLIENTS)?)?;
    Ok(MemFiles::open(files, Vec::new(alloc)))
}

/// The monitor and its clients at the start, under a plan that it is compiled to.
fn compiled(alloc: Global) -> Option<FreeMonitor> {
    let monitor = checked(alloc, MONITOR)?;
    let scripts = scripts_read(alloc, CLIENTS, &monitor)?;
    let placed = place(alloc, &monitor).ok()?;
    FreeMonitor::open(alloc, monitor, placed.plan, scripts, 0).ok()
}

fn has_client(free: &FreeMonitor, client: u32) -> bool
    ensures { IsTrue result ↔ (client < length free.now.system.clients) }
{
    (client as usize) < free.scripts().clients().len()
}

/// Makes a section of each of these clients, one after the other, and says whether each could make
/// one.
fn makes(free: &mut FreeMonitor, clients: &[u32]) -> bool {
    for client in clients {
        if !has_client(free, *client) || free.section(*client).is_err() {
            return false;
        }
    }
    true
}

/// Writes the log, where every client waits or is done.
fn write_closed<S: Sink>(free: &FreeMonitor, out: &mut S) -> Result<(), SinkFailed> {
    if free.closed() {
        write_log(free, out)?;
    }
    out.flush()
}

fn main(rt: HostRuntime) -> Result<()> {
    let alloc = rt.alloc();
    let words = texts(alloc, &["expresso", "simulate", "buffer.mon", "two.cl"])?;
    let mut files = files(alloc)?;
    let mut out = StdSink::new(&rt);
    let _status = expresso(&rt, alloc, &words, &mut files, &mut out, &OpenGate);
    let mut free = compiled(alloc).context("a text is refused")?;
    let _made = makes(&mut free, &ORDER);
    write_closed(&free, &mut out)?;
    Ok(())
}
