//! What is wrong of the bytes of files.

ghost use Rattle.std.specs.Prelude.{◌≤◌, length};
ghost use Rattle.lang_base.specs.Limits.{FILE_BYTES};

use lang_base::SourceError;
use lang_monitor::Monitor;
use lang_script::clients;
use lang_syntax::{names_are_identifiers, parse_clients, parse_monitor};
use lang_tokens::tokens;
use lang_types::check;
use machine_implicit::Scripts;
use std::alloc::Global;

/// The monitor that bytes stand for, or what is wrong of them.
pub(crate) fn monitor_in(alloc: Global, bytes: &[u8]) -> Result<Monitor, SourceError>
    requires { length bytes.now ≤ FILE_BYTES }
{
    let tokens = tokens(alloc, bytes)?;
    let tree = parse_monitor(alloc, bytes, &tokens)?;
    let monitor = check(alloc, &tree)?;
    Ok(monitor)
}

/// What is wrong of the bytes of clients of this monitor, if anything is.
pub(crate) fn scripts_in(
    alloc: Global,
    bytes: &[u8],
    monitor: &Monitor,
) -> Result<Scripts, SourceError>
    requires { length bytes.now ≤ FILE_BYTES }
{
    let tokens = tokens(alloc, bytes)?;
    let tree = parse_clients(alloc, bytes, &tokens)?;
    names_are_identifiers(); // those of a tree that was read, as `clients` asks
    let scripts = clients(alloc, &tree, monitor)?;
    Ok(scripts)
}
