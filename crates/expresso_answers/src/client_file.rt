//! From the bytes of a client file to its scripts.

ghost use Rattle.std.specs.Prelude.{◌≤◌, IfErr, IfOk, length};
ghost use Rattle.lang_base.specs.Limits.{FILE_BYTES};
ghost use Rattle.machine_implicit.specs.Scripted.{FitsScripts};
ghost use Rattle.expresso_answers.specs.ClientFiles.{AreAccepted, IsFirstOfClients};
ghost use Rattle.expresso_answers.specs.inner.Causes.{HasCause};

use lang_base::SourceError;
use lang_monitor::Monitor;
use lang_script::clients;
use lang_syntax::{names_are_identifiers, parse_clients};
use lang_tokens::tokens;
use machine_implicit::Scripts;
use std::alloc::Global;

/// The scripts that bytes stand for, of clients of this monitor.
///
/// # Errors
///
/// The first fault of the bytes, by their tokens, the grammar and the rules; or out of memory.
pub(crate) fn read_clients(
    alloc: Global,
    bytes: &[u8],
    monitor: &Monitor,
) -> Result<Scripts, SourceError>
    requires { length bytes.now ≤ FILE_BYTES }
    ensures accepted { IfOk result (λ scripts. AreAccepted bytes.now monitor.now scripts) }
    ensures fits { IfOk result (λ scripts. FitsScripts monitor.now scripts) }
    ensures fault { IfErr result (HasCause (IsFirstOfClients bytes.now monitor.now)) }
{
    let tokens = tokens(alloc, bytes)?;
    let tree = parse_clients(alloc, bytes, &tokens)?;
    names_are_identifiers();
    let scripts = clients(alloc, &tree, monitor)?;
    Ok(scripts)
}
