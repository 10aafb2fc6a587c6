//! What a check says of the report of a placed plan.

use lang_monitor::Monitor;
use plan_place::place;
use report_proofs::placed_text_is_report_text;
use report_verdict::{Verdict, recheck, report_of};
use samples::checked;
use samples::monitors::LOCK;
use std::alloc::{AllocError, Global};
use std::test::Fail;

fn verdict_of(alloc: Global, monitor: &Monitor) -> Result<Verdict, AllocError> {
    let placed = place(alloc, monitor)?;
    placed_text_is_report_text(); // so `recheck` may be asked of its report
    let report = report_of(alloc, placed)?;
    recheck(alloc, monitor, &report)
}

#[test]
fn the_report_of_a_placed_plan_is_accepted(rt: HostRuntime) -> Result<(), Fail> {
    let lock = checked(rt.alloc(), LOCK).ok_or("a monitor")?;
    let verdict = verdict_of(rt.alloc(), &lock)?;
    assert_eq!(rt; verdict, Verdict::Accepted { claims: 6 });
    Ok(())
}
