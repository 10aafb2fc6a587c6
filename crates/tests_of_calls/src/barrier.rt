//! Callers that wait for the last of them, each in a thread of its own.

use super::opening::opened;
use machine_events::{Entry, Outcome};
use samples::monitors::BUFFER;
use std::test::Fail;
use threads_call::{OpenGate, run_callers};

/// Whoever comes last frees all others.
const BARRIER: &[u8] = b"monitor Barrier {
  const ALL = 32;
  int here = 0;
  method meet()
    waituntil (true) {
      here = here + 1;
    }
    waituntil (here == ALL) {
    }
}
";

/// Thirty-two clients that meet.
const ALL: &[u8] =
    b"client A { meet(); } client B { meet(); } client C { meet(); } client D { meet(); }
client E { meet(); } client F { meet(); } client G { meet(); } client H { meet(); }
client I { meet(); } client J { meet(); } client K { meet(); } client L { meet(); }
client M { meet(); } client N { meet(); } client O { meet(); } client P { meet(); }
client Q { meet(); } client R { meet(); } client S { meet(); } client T { meet(); }
client U { meet(); } client V { meet(); } client W { meet(); } client X { meet(); }
client Y { meet(); } client Z { meet(); } client a { meet(); } client b { meet(); }
client c { meet(); } client d { meet(); } client e { meet(); } client f { meet(); }
";

/// How many entries are of blocks that replied.
fn replies(log: &[Entry]) -> usize {
    log.iter()
        .filter(|entry| matches!(entry.outcome, Outcome::Replies { .. }))
        .count()
}

#[test]
fn the_last_of_thirty_two_frees_all(rt: HostRuntime) -> Result<(), Fail> {
    let free = opened(rt.alloc(), BARRIER, ALL)?;
    let last = run_callers(&rt, rt.alloc(), free, &OpenGate)?;
    assert_eq!(rt; replies(last.log()), 64);
    Ok(())
}

#[test]
fn without_clients_no_call_is_made(rt: HostRuntime) -> Result<(), Fail> {
    let free = opened(rt.alloc(), BUFFER, b"")?;
    let last = run_callers(&rt, rt.alloc(), free, &OpenGate)?;
    assert_eq!(rt; last.log().len(), 0);
    Ok(())
}
