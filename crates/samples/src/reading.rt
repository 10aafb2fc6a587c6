//! From a text to a monitor, and to its clients.

ghost use Rattle.std.specs.Prelude.{◌≤◌, IfSome, IsSome, length};
ghost use Rattle.lang_base.specs.Limits.{FILE_BYTES};
ghost use Rattle.lang_tokens.specs.Spelling.{Spells};
ghost use Rattle.machine_implicit.specs.Scripted.{FitsScripts};
ghost use Rattle.samples.specs.Reading.{AreClientsOf, IsMonitorOf};

use lang_base::limits;
use lang_monitor::Monitor;
use lang_script::clients;
use lang_syntax::{names_are_identifiers, parse_clients, parse_monitor};
use lang_tokens::{Token, tokens};
use lang_types::check;
use machine_implicit::Scripts;
use std::alloc::Global;

/// The tokens of a text that is short enough.
fn tokens_of(alloc: Global, text: &[u8]) -> Option<Vec<Token>>
    ensures short { IsSome result → length text.now ≤ FILE_BYTES }
    ensures spelled { IfSome result (λ read. Spells text.now read.items) }
{
    if text.len() > limits::FILE_BYTES {
        return None;
    }
    tokens(alloc, text).ok()
}

/// The monitor of a text, where the text is short enough and keeps all the rules, and there is
/// memory for it.
pub fn checked(alloc: Global, text: &[u8]) -> Option<Monitor>
    ensures { IfSome result (λ monitor. IsMonitorOf text.now monitor) }
{
    let read = tokens_of(alloc, text)?;
    match parse_monitor(alloc, text, &read) {
        Ok(tree) => check(alloc, &tree).ok(),
        Err(_) => None,
    }
}

/// The clients of a text, where the text is short enough and keeps all the rules of this monitor,
/// and there is memory for it.
pub fn scripts_read(alloc: Global, text: &[u8], monitor: &Monitor) -> Option<Scripts>
    ensures clients { IfSome result (λ scripts. AreClientsOf text.now monitor.now scripts) }
    ensures fits { IfSome result (FitsScripts monitor.now) }
{
    let read = tokens_of(alloc, text)?;
    let tree = parse_clients(alloc, text, &read).ok()?;
    names_are_identifiers(); // those of a tree that was read, as `clients` asks
    clients(alloc, &tree, monitor).ok()
}
