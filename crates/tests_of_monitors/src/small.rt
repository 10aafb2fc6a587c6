//! Which monitors are told to be small, so that their plans are exact.

use plan_small::is_small;
use samples::checked;
use samples::monitors::{ACCUMULATOR, BUFFER, GATE, LEVEL, LOCK, READERS_AND_WRITERS, SUM, UP};
use std::alloc::Global;
use std::test::Fail;

// ---- the files of `expresso_cli/data`, but for the buffer and the lock, which are samples

const SEMAPHORE: &[u8] = b"monitor Semaphore {
  int free = 2;
  method acquire() waituntil (free > 0) {
    free = free - 1;
  }
  method release() waituntil (true) {
    free = free + 1;
  }
}
";

const READERS_WRITERS: &[u8] = b"monitor ReadersWriters {
  int readers = 0;
  int queued = 0;
  bool writing = false;
  method startRead() waituntil (!writing && queued == 0) {
    readers = readers + 1;
  }
  method endRead() waituntil (readers > 0) {
    readers = readers - 1;
  }
  method ask() waituntil (true) {
    queued = queued + 1;
  }
  method startWrite() waituntil (readers == 0 && !writing && queued > 0) {
    writing = true;
    queued = queued - 1;
  }
  method endWrite() waituntil (writing) {
    writing = false;
  }
}
";

const BARRIER: &[u8] = b"monitor Barrier {
  const PARTIES = 3;
  int waiting = 0;
  bool open = false;
  method arrive() waituntil (!open) {
    waiting = waiting + 1;
    if (waiting == PARTIES) {
      open = true;
    }
  }
  method leave() waituntil (open) {
    waiting = waiting - 1;
    if (waiting == 0) {
      open = false;
    }
    return waiting;
  }
}
";

/// What is told of the monitor of a text.
fn told(alloc: Global, text: &[u8]) -> Option<bool> {
    let monitor = checked(alloc, text)?;
    is_small(alloc, &monitor).ok()
}

#[test]
fn monitors_that_compare_two_numbers_at_most_are_small(rt: HostRuntime) {
    let table: [&[u8]; 9] = [
        BUFFER,
        LOCK,
        READERS_AND_WRITERS,
        UP,
        GATE,
        LEVEL,
        SEMAPHORE,
        READERS_WRITERS,
        BARRIER,
    ];
    for text in table {
        assert_eq!(rt; told(rt.alloc(), text), Some(true));
    }
}

// The guard of the first is a sum of two fields, and the second assigns a field and an input.
#[test]
fn a_sum_of_two_variables_is_not_told_to_be_small(rt: HostRuntime) {
    assert_eq!(rt; told(rt.alloc(), SUM), Some(false));
    assert_eq!(rt; told(rt.alloc(), ACCUMULATOR), Some(false));
}
