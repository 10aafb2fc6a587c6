//! What follows from the definitions alone.

ghost use Rattle.machine_stress.specs.Laws.{EveryLargeRunEndsDone};

/// Whatever the number, each run of the large input, whoever acts when, that has come to its end is
/// done: every client has made each of its 512 calls, so 16,384 are committed, and the buffer is
/// empty. So none stalls.
pub fn every_large_run_ends_done()
    ensures { EveryLargeRunEndsDone }
{}
