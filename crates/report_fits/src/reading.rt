//! The lines of blocks that fit, read.

ghost use Rattle.std.specs.Prelude.{◌≡◌, ◌++◌, [], IfOk, MatchOption, codes, option_map};
ghost use Rattle.logic_cert.specs.declared.cert.Cert.{Cert};
ghost use Rattle.machine_events.specs.PlanText.{block_name};
ghost use Rattle.report_proofs.specs.Fronts.{Anything, IsAfter, IsFront, IsNoFront};
ghost use Rattle.report_proofs.specs.Readings.{IsReadable};
ghost use Rattle.report_fits.specs.FitReadings.{AreFitsRead};
ghost use Rattle.report_fits.specs.FitTexts.{fit_line};
ghost use Rattle.report_fits.specs.inner.Reading.{IsFitTurn};

use super::fit::Fit;
use super::writing::put_fit_head;
use base_io::GrowingSink;
use base_pen::Pen;
use lang_monitor::Monitor;
use logic_outline::Outline;
use report_proofs::{after_piece, read_cert_line};
use std::alloc::{AllocError, Global};

/// The blocks whose lines the bytes are, with their certificates, or none where they are no such
/// lines: each block of the monitor may have one, and they stand in the order of blocks. It fails
/// only for want of memory, however deep certificates nest.
pub fn read_fits(
    alloc: Global,
    monitor: &Monitor,
    bytes: &[u8],
) -> Result<Option<Vec<Fit>>, AllocError>
    ensures { IfOk result (λ found.
        AreFitsRead monitor.now bytes.now (option_map (λ fits. fits.items) found)) }
{
    let blocks = monitor.blocks();
    let mut fits = Vec::new(alloc);
    let mut rest = bytes;
    for block in 0..blocks.len() {
        rest = take_fit(alloc, monitor, block as u32, &mut fits, rest)?;
    }
    Ok(all_read(fits, rest))
}

/// The blocks, where nothing is left after their lines.
fn all_read(fits: Vec<Fit>, rest: &[u8]) -> Option<Vec<Fit>>
    ensures { MatchOption result (rest.now ≡ [] → ⊥)
        (λ read. (read.items ≡ fits.items) × (rest.now ≡ [])) }
{
    if rest.is_empty() { Some(fits) } else { None }
}

/// Takes the block, where its line stands at the front of the bytes, and answers what is left.
fn take_fit<'a>(
    alloc: Global,
    monitor: &Monitor,
    block: u32,
    fits: &mut Vec<Fit>,
    bytes: &'a [u8],
) -> Result<&'a [u8], AllocError>
    ensures { IfOk result (λ rest. IsFitTurn monitor.now block bytes.now rest.now
        fits.old.items fits.new.items) }
{
    match read_fit(alloc, monitor, block, bytes)? {
        Some((cert, rest)) => {
            fits.push(Fit { block, cert })?;
            Ok(rest)
        }
        None => Ok(bytes),
    }
}

/// The certificate of the block whose line stands at the front of the bytes, and what is left.
fn read_fit<'a>(
    alloc: Global,
    monitor: &Monitor,
    block: u32,
    bytes: &'a [u8],
) -> Result<Option<(Outline, &'a [u8])>, AllocError>
    ensures { IfOk result (λ found. MatchOption found
        (IsNoFront Cert IsReadable Anything (fit_line monitor.now block) bytes.now)
        (λ read. IsFront Cert IsReadable Anything (fit_line monitor.now block)
        bytes.now read.0 read.1.now)) }
{
    match after_head(alloc, monitor, block, bytes)? {
        Some(rest) => read_cert_line(alloc, rest),
        None => Ok(None),
    }
}

/// What is left after `proof fits put: `.
fn after_head<'a>(
    alloc: Global,
    monitor: &Monitor,
    block: u32,
    bytes: &'a [u8],
) -> Result<Option<&'a [u8]>, AllocError>
    ensures { IfOk result (IsAfter bytes.now
        (codes "proof fits " ++ block_name monitor.now block ++ codes ": ")) }
{
    let head = fit_head(alloc, monitor, block)?;
    Ok(after_piece(bytes, head.as_slice()))
}

/// What stands in a block's line before the certificate: `proof fits put: `.
fn fit_head(alloc: Global, monitor: &Monitor, block: u32) -> Result<Vec<u8>, AllocError>
    ensures { IfOk result (λ text. text.items
        ≡ codes "proof fits " ++ block_name monitor.now block ++ codes ": ") }
{
    let mut out = GrowingSink::new(alloc);
    let mut pen = Pen::new(&mut out);
    put_fit_head(monitor, block, &mut pen);
    pen.outcome.map_err(|_| AllocError)?;
    Ok(out.into_bytes())
}
