//! From the bytes of a monitor file to its tree and its monitor.

ghost use Rattle.std.specs.Prelude.{◌≤◌, IfErr, IfOk, length};
ghost use Rattle.lang_base.specs.Limits.{FILE_BYTES};
ghost use Rattle.expresso_answers.specs.MonitorFiles.{IsAccepted, IsFirstOfMonitor};
ghost use Rattle.expresso_answers.specs.inner.Causes.{HasCause};

use lang_base::SourceError;
use lang_monitor::Monitor;
use lang_syntax::parse_monitor;
use lang_tokens::tokens;
use lang_tree::MonitorTree;
use lang_types::check;
use std::alloc::Global;

/// A monitor file that is accepted.
#[derive(Debug, Drop)]
pub struct MonitorFile {
    pub tree: MonitorTree,
    pub monitor: Monitor,
}

/// The tree and the monitor that bytes stand for.
///
/// # Errors
///
/// The first fault of the bytes, by their tokens, the grammar and the rules; or out of memory.
pub(crate) fn read_monitor(alloc: Global, bytes: &[u8]) -> Result<MonitorFile, SourceError>
    requires { length bytes.now ≤ FILE_BYTES }
    ensures accepted { IfOk result (λ file. IsAccepted bytes.now file.tree file.monitor) }
    ensures fault { IfErr result (HasCause (IsFirstOfMonitor bytes.now)) }
{
    let tokens = tokens(alloc, bytes)?;
    let tree = parse_monitor(alloc, bytes, &tokens)?;
    let monitor = check(alloc, &tree)?;
    Ok(MonitorFile { tree, monitor })
}
