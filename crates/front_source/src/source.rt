//! Hints of faults of source files.

ghost use Rattle.std.specs.Prelude.{◌++◌, Option};
ghost use Rattle.base_io.specs.Writing.{Wrote};
ghost use Rattle.front_hint.specs.declared.hint.Hint.{Hint};
ghost use Rattle.front_hint.specs.Shown.{caret_text, hint_if};

use crate::around::{Around, tokens_of};
use crate::calling::clients_hint;
use crate::grammar::monitor_hint;
use crate::lexing::lexing_hint;
use crate::rules::rule_hint;
use base_io::{Sink, SinkFailed};
use front_hint::{Hint, write_caret, write_hint_if};
use lang_base::{Refusal, SourceFault};
use lang_tokens::Token;
use std::alloc::Global;

/// Writes the line of a fault of a monitor file, a caret under its place, and, where there is one,
/// a line with a hint of what is likely wrong. Where memory is short the hint says less.
///
/// After `SinkFailed` the first bytes of this were taken, fewer than all and maybe none.
pub fn write_monitor_hint<S: Sink>(
    alloc: Global,
    bytes: &[u8],
    fault: SourceFault,
    out: &mut S,
) -> Result<(), SinkFailed>
    ensures { (hint : Option Hint) × Wrote (S.seen out.old) (S.seen out.new) result
        (caret_text bytes.now fault.at ++ hint_if hint) }
{
    let tokens = tokens_of(alloc, bytes);
    write_chosen(
        bytes,
        fault.at,
        monitor_fault_hint(bytes, fault, &tokens),
        out,
    )
}

/// Writes the same of a file of clients, of the monitor that the other bytes are of.
///
/// After `SinkFailed` the first bytes of this were taken, fewer than all and maybe none.
pub fn write_clients_hint<S: Sink>(
    alloc: Global,
    bytes: &[u8],
    monitor: &[u8],
    fault: SourceFault,
    out: &mut S,
) -> Result<(), SinkFailed>
    ensures { (hint : Option Hint) × Wrote (S.seen out.old) (S.seen out.new) result
        (caret_text bytes.now fault.at ++ hint_if hint) }
{
    let tokens = tokens_of(alloc, bytes);
    let methods = tokens_of(alloc, monitor);
    let hint = clients_fault_hint(bytes, monitor, fault, &tokens, &methods);
    write_chosen(bytes, fault.at, hint, out)
}

/// Writes the line of an offset with a caret, and a hint where there is one.
fn write_chosen<S: Sink>(
    bytes: &[u8],
    at: u32,
    hint: Option<Hint>,
    out: &mut S,
) -> Result<(), SinkFailed>
    ensures { Wrote (S.seen out.old) (S.seen out.new) result
        (caret_text bytes.now at ++ hint_if hint.entry) }
{
    write_caret(bytes, at, out)?;
    write_hint_if(hint, out)
}

/// What is likely wrong of a monitor.
fn monitor_fault_hint<'a>(
    bytes: &'a [u8],
    fault: SourceFault,
    tokens: &'a [Token],
) -> Option<Hint<'a>> {
    let place = Around::new(bytes, tokens, fault.at);
    match fault.what {
        Refusal::Lex => lexing_hint(&place),
        Refusal::Syntax => monitor_hint(&place),
        what => rule_hint(what, &place, &place),
    }
}

/// What is likely wrong of clients.
fn clients_fault_hint<'a>(
    bytes: &'a [u8],
    monitor: &'a [u8],
    fault: SourceFault,
    tokens: &'a [Token],
    methods: &'a [Token],
) -> Option<Hint<'a>> {
    let place = Around::new(bytes, tokens, fault.at);
    match fault.what {
        Refusal::Lex => lexing_hint(&place),
        Refusal::Syntax => clients_hint(&place),
        what => rule_hint(what, &place, &Around::new(monitor, methods, 0)),
    }
}
