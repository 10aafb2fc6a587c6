//! The texts of reports and of verdicts.

ghost use Rattle.std.specs.Prelude.{◌≡◌, ◌++◌, codes, decimal, slice_get};
ghost use Rattle.std.specs.List.{flat_map};
ghost use Rattle.base_io.specs.Writing.{Wrote};
ghost use Rattle.base_pen.specs.Putting.{Adds};
ghost use Rattle.machine_events.specs.PlanText.{block_name, candidate_text, field_name, flag_mark};
ghost use Rattle.machine_events.specs.PlanText.{plan_text};
ghost use Rattle.logic_cert.specs.CertText.{cert_text};
ghost use Rattle.report_proofs.specs.ReportTexts.{claim_text, placed_text, proof_text};
ghost use Rattle.report_proofs.specs.ReportTexts.{verdict_text};

use base_io::{Sink, SinkFailed};
use base_pen::Pen;
use lang_monitor::{Candidate, Claim, Field, Monitor};
use logic_cert::{Cert, print_cert};
use machine_events::Plan;
use plan_claims::{PlacedPlan, Proof};
use report_text::{write_block_name, write_candidate, write_plan};
use report_verdict::Verdict;

/// Writes the report of a plan that was placed: the text of the plan, and then a line for each
/// claim that it rests on, with its certificate. It takes no memory.
///
/// After `SinkFailed` the first bytes of the text were taken, fewer than all and maybe none.
pub fn write_report<S: Sink>(
    monitor: &Monitor,
    placed: &PlacedPlan,
    out: &mut S,
) -> Result<(), SinkFailed>
    ensures { Wrote (S.seen out.old) (S.seen out.new) result (placed_text monitor.now placed.now) }
{
    let mut pen = Pen::new(out);
    put_report(monitor, placed, &mut pen);
    pen.outcome
}

#[tactic(auto, using(base_pen::proofs::Putting::adds_two))]
fn put_report<S: Sink>(monitor: &Monitor, placed: &PlacedPlan, pen: &mut Pen<'_, S>)
    ensures { Adds S.seen pen.old pen.new (placed_text monitor.now placed.now) }
{
    put_plan(monitor, &placed.plan, pen);
    put_proofs(monitor, placed.proofs.items(), pen);
}

/// Puts the text of a plan.
pub fn put_plan<S: Sink>(monitor: &Monitor, plan: &Plan, pen: &mut Pen<'_, S>)
    ensures { Adds S.seen pen.old pen.new (plan_text monitor.now plan.now) }
{
    if pen.outcome.is_ok() {
        pen.outcome = write_plan(monitor, plan, pen.out);
    }
}

/// A line for each proof.
fn put_proofs<S: Sink>(monitor: &Monitor, proofs: &[Proof], pen: &mut Pen<'_, S>)
    ensures { Adds S.seen pen.old pen.new
        (flat_map (λ proof. proof_text monitor.now proof.claim proof.cert) proofs.now) }
{
    for proof in proofs {
        put_proof(monitor, proof.claim, &proof.cert, pen);
    }
}

/// Puts the line of a claim with its certificate: `proof none put 2: clash 0 1` and a line feed.
#[tactic(auto, using(base_pen::proofs::Putting::adds_three))]
pub fn put_proof<S: Sink>(monitor: &Monitor, claim: Claim, cert: &Cert, pen: &mut Pen<'_, S>)
    ensures { Adds S.seen pen.old pen.new (proof_text monitor.now claim cert.now) }
{
    put_claim_head(monitor, claim, pen);
    put_cert(cert, pen);
    pen.put(b"\n");
}

/// `proof none put 2: `
#[tactic(auto, using(base_pen::proofs::Putting::adds_three))]
pub(crate) fn put_claim_head<S: Sink>(monitor: &Monitor, claim: Claim, pen: &mut Pen<'_, S>)
    ensures { Adds S.seen pen.old pen.new
        (codes "proof " ++ claim_text monitor.now claim ++ codes ": ") }
{
    pen.put(b"proof ");
    put_claim(monitor, claim, pen);
    pen.put(b": ");
}

/// Puts the text of a certificate.
pub fn put_cert<S: Sink>(cert: &Cert, pen: &mut Pen<'_, S>)
    ensures { Adds S.seen pen.old pen.new (cert_text cert.now) }
{
    if pen.outcome.is_ok() {
        pen.outcome = print_cert(cert, pen.out);
    }
}

/// Writes a claim, as it stands in the line of a proof: `keep x <= 4 put`, `none put 2`,
/// `one 1 put` or `untested put 2`. It takes no memory.
///
/// After `SinkFailed` the first bytes of the text were taken, fewer than all and maybe none.
pub fn write_claim<S: Sink>(monitor: &Monitor, claim: Claim, out: &mut S) -> Result<(), SinkFailed>
    ensures { Wrote (S.seen out.old) (S.seen out.new) result (claim_text monitor.now claim) }
{
    let mut pen = Pen::new(out);
    put_claim(monitor, claim, &mut pen);
    pen.outcome
}

/// Puts a claim, as [`write_claim`] writes it.
pub fn put_claim<S: Sink>(monitor: &Monitor, claim: Claim, pen: &mut Pen<'_, S>)
    ensures { Adds S.seen pen.old pen.new (claim_text monitor.now claim) }
{
    match claim {
        Claim::Keeps { candidate, block } => put_keeps(monitor, candidate, block, pen),
        Claim::NoNote { block, condition } => {
            put_after_block(b"none ", monitor, block, condition, pen)
        }
        Claim::One { condition, block } => put_one(monitor, condition, block, pen),
        Claim::NoTest { block, condition } => {
            put_after_block(b"untested ", monitor, block, condition, pen)
        }
    }
}

/// `keep x <= 4 put`
#[tactic(auto, using(base_pen::proofs::Putting::adds_four))]
fn put_keeps<S: Sink>(monitor: &Monitor, candidate: Candidate, block: u32, pen: &mut Pen<'_, S>)
    ensures { Adds S.seen pen.old pen.new
        (codes "keep " ++ candidate_text monitor.now.fields candidate ++ codes " "
        ++ block_name monitor.now block) }
{
    pen.put(b"keep ");
    put_candidate(monitor, candidate, pen);
    pen.put(b" ");
    put_block_name(monitor, block as usize, pen);
}

/// Puts a candidate about the fields of the monitor.
pub fn put_candidate<S: Sink>(monitor: &Monitor, candidate: Candidate, pen: &mut Pen<'_, S>)
    ensures { Adds S.seen pen.old pen.new (candidate_text monitor.now.fields candidate) }
{
    if pen.outcome.is_ok() {
        pen.outcome = write_candidate(monitor.fields(), candidate, pen.out);
    }
}

/// `one 1 put`
#[tactic(auto, using(base_pen::proofs::Putting::adds_four))]
fn put_one<S: Sink>(monitor: &Monitor, condition: u32, block: u32, pen: &mut Pen<'_, S>)
    ensures { Adds S.seen pen.old pen.new
        (codes "one " ++ decimal condition ++ codes " " ++ block_name monitor.now block) }
{
    pen.put(b"one ");
    pen.decimal(condition as u64);
    pen.put(b" ");
    put_block_name(monitor, block as usize, pen);
}

/// `none put 2`, with these words before the block.
#[tactic(auto, using(base_pen::proofs::Putting::adds_four))]
fn put_after_block<S: Sink>(
    words: &[u8],
    monitor: &Monitor,
    block: u32,
    condition: u32,
    pen: &mut Pen<'_, S>,
)
    ensures { Adds S.seen pen.old pen.new
        (words.now ++ block_name monitor.now block ++ codes " " ++ decimal condition) }
{
    pen.put(words);
    put_block_name(monitor, block as usize, pen);
    pen.put(b" ");
    pen.decimal(condition as u64);
}

/// Puts the name of a block, by its number in the monitor.
pub fn put_block_name<S: Sink>(monitor: &Monitor, block: usize, pen: &mut Pen<'_, S>)
    ensures { Adds S.seen pen.old pen.new (block_name monitor.now block) }
{
    if pen.outcome.is_ok() {
        pen.outcome = write_block_name(monitor, block, pen.out);
    }
}

/// The name of a field, or nothing where there is none.
pub(crate) fn field_bytes(fields: &[Field], field: u32) -> &[u8]
    ensures { result.now ≡ field_name (slice_get fields.now field) }
{
    match fields.get(field as usize) {
        Some(field) => field.name.bytes(),
        None => b"",
    }
}

pub(crate) fn flag_bytes(is: bool) -> &'static [u8]
    ensures { result.now ≡ flag_mark is }
{
    if is { b"" } else { b"!" }
}

/// Writes the line of a verdict: `accepted 6 claims`, `rejected: plan` or `rejected: line 6`. It
/// takes no memory.
///
/// After `SinkFailed` the first bytes of the line were taken, fewer than all and maybe none.
pub fn write_verdict<S: Sink>(verdict: &Verdict, out: &mut S) -> Result<(), SinkFailed>
    ensures { Wrote (S.seen out.old) (S.seen out.new) result (verdict_text verdict.now) }
{
    let mut pen = Pen::new(out);
    put_verdict(verdict, &mut pen);
    pen.outcome
}

fn put_verdict<S: Sink>(verdict: &Verdict, pen: &mut Pen<'_, S>)
    ensures { Adds S.seen pen.old pen.new (verdict_text verdict.now) }
{
    match *verdict {
        Verdict::Accepted { claims } => put_count(b"accepted ", claims, b" claims\n", pen),
        Verdict::Unlawful => pen.put(b"rejected: plan\n"),
        Verdict::Unproved { line } => put_count(b"rejected: line ", line, b"\n", pen),
    }
}

/// A number between two words.
#[tactic(auto, using(base_pen::proofs::Putting::adds_three))]
fn put_count<S: Sink>(before: &[u8], number: u64, after: &[u8], pen: &mut Pen<'_, S>)
    ensures { Adds S.seen pen.old pen.new (before.now ++ decimal number ++ after.now) }
{
    pen.put(before);
    pen.decimal(number);
    pen.put(after);
}
