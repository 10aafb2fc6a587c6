//! The texts that are the same in every module.

ghost use Rattle.std.specs.Prelude.{◌≡◌};
ghost use Rattle.emit_module.specs.Fixed.{COPY, COPY_END, DATA, DEBUG, DEBUG_END, DEFAULT, FAILED};
ghost use Rattle.emit_module.specs.Fixed.{HEAD, INNER, LOCK, OVERFLOW, REFUSED, STATE};
ghost use Rattle.emit_module.specs.Fixed.{STATE_IMPL, TIMES, VERSION, WAIT, WHOLE, WITH};

/// The program's version, which the head of a module names.
pub fn version_bytes() -> &'static [u8]
    ensures { result.now ≡ VERSION }
{
    b"0.2.0"
}

/// What stands after the version in the head.
pub(crate) fn head_bytes() -> &'static [u8]
    ensures { result.now ≡ HEAD }
{
    b".
// Change the monitor, and not this file. It wants Rust 1.65 and the edition 2021, or later ones.

"
}

/// What stands before the functions of a monitor with data.
pub(crate) fn with_bytes() -> &'static [u8]
    ensures { result.now ≡ WITH }
{
    b"#[rustfmt::skip]
#[allow(dead_code, non_snake_case)]
#[allow(clippy::doc_markdown, clippy::style, clippy::too_many_arguments)]
impl<D> "
}

/// What is done with the data beside calls.
pub(crate) fn data_bytes() -> &'static [u8]
    ensures { result.now ≡ DATA }
{
    b"
    /// The data, which nobody shares now.
    #[must_use]
    pub fn get_mut(&mut self) -> &mut D {
        &mut self.inner.get_mut().unwrap_or_else(PoisonError::into_inner).data
    }

    /// The data, without the monitor.
    #[must_use]
    pub fn into_inner(self) -> D {
        self.inner.into_inner().unwrap_or_else(PoisonError::into_inner).data
    }

    /// Whether the mutex is poisoned, as where a function panicked that a call was given.
    #[must_use]
    pub fn is_poisoned(&self) -> bool {
        self.inner.is_poisoned()
    }
"
}

/// The braces of `impl Default`.
pub(crate) fn default_bytes() -> &'static [u8]
    ensures { result.now ≡ DEFAULT }
{
    b" {
    fn default() -> Self {
        Self::new()
    }
}

"
}

/// `impl Debug` up to the name that it prints.
pub(crate) fn debug_bytes() -> &'static [u8]
    ensures { result.now ≡ DEBUG }
{
    b"<D> {
    fn fmt(&self, f: &mut std::fmt::Formatter<'_>) -> std::fmt::Result {
        let state = match self.inner.try_lock() {
            Ok(inner) => Some(inner.state),
            Err(std::sync::TryLockError::Poisoned(inner)) => Some(inner.into_inner().state),
            Err(std::sync::TryLockError::WouldBlock) => None,
        };
        let mut text = f.debug_struct(\""
}

/// `impl Debug` after that name.
pub(crate) fn debug_end() -> &'static [u8]
    ensures { result.now ≡ DEBUG_END }
{
    b"\");
        match state {
            Some(state) => text.field(\"state\", &state),
            None => text.field(\"state\", &format_args!(\"<locked>\")),
        };
        text.finish_non_exhaustive()
    }
}

"
}

/// What stands before the struct of what the mutex guards.
pub(crate) fn inner_bytes() -> &'static [u8]
    ensures { result.now ≡ INNER }
{
    b"/// What the mutex guards: the fields, how many calls sleep on each condition, and the data.
#[allow(dead_code)]
"
}

/// What stands after it, up to the counts of a copy.
pub(crate) fn copy_bytes() -> &'static [u8]
    ensures { result.now ≡ COPY }
{
    b"    data: D,
}

impl<D> Inner<D> {
    /// All but the data.
    #[allow(dead_code)]
    fn copy(&self) -> Inner {
        Inner {
            state: self.state,
"
}

/// What stands after these counts.
pub(crate) fn copy_end() -> &'static [u8]
    ensures { result.now ≡ COPY_END }
{
    b"            data: (),
        }
    }
}

"
}

/// What stands before the struct of the state.
pub(crate) fn state_bytes() -> &'static [u8]
    ensures { result.now ≡ STATE }
{
    b"/// The fields of the monitor.
#[derive(Clone, Copy, Debug)]
#[allow(dead_code)]
"
}

/// What stands before the functions of the state.
pub(crate) fn state_impl_bytes() -> &'static [u8]
    ensures { result.now ≡ STATE_IMPL }
{
    b"// The guards and bodies, with expressions as the monitor has them.
#[rustfmt::skip]
#[allow(unused, unused_comparisons, clippy::all, clippy::pedantic)]
"
}

/// The function that locks the monitor.
pub(crate) fn lock_bytes() -> &'static [u8]
    ensures { result.now ≡ LOCK }
{
    b"
/// Locks the monitor, poisoned or not: where a function panicked its block changed no field.
fn lock<D>(inner: &Mutex<Inner<D>>) -> MutexGuard<'_, Inner<D>> {
    inner.lock().unwrap_or_else(PoisonError::into_inner)
}
"
}

/// The function that waits on a condition.
pub(crate) fn wait_bytes() -> &'static [u8]
    ensures { result.now ≡ WAIT }
{
    b"
/// Gives the lock back and waits on the condition, in one step, and takes the lock again.
fn wait<'a, D>(condition: &Condvar, inner: MutexGuard<'a, Inner<D>>) -> MutexGuard<'a, Inner<D>> {
    condition
        .wait(inner)
        .unwrap_or_else(PoisonError::into_inner)
}

/// Wakes one call that waits on the condition, where a block ends that changed nothing.
#[allow(dead_code)]
struct HandOn<'a>(&'a Condvar);

impl Drop for HandOn<'_> {
    fn drop(&mut self) {
        self.0.notify_one();
    }
}
"
}

/// The function that waits on a condition for a time, and the one that says how long.
pub(crate) fn times_bytes() -> &'static [u8]
    ensures { result.now ≡ TIMES }
{
    b"
/// As `wait`, but no longer than this.
fn wait_for<'a, D>(
    condition: &Condvar,
    inner: MutexGuard<'a, Inner<D>>,
    left: Duration,
) -> MutexGuard<'a, Inner<D>> {
    condition
        .wait_timeout(inner, left)
        .unwrap_or_else(PoisonError::into_inner)
        .0
}

/// How long it is until then, or `None` where it has come.
fn time_left(end: Instant) -> Option<Duration> {
    end.checked_duration_since(Instant::now())
        .filter(|left| !left.is_zero())
}
"
}

/// The error of calls that may fail, and the test of a number.
pub(crate) fn overflow_bytes() -> &'static [u8]
    ensures { result.now ≡ OVERFLOW }
{
    b"
/// A number would have left 64 bits.
#[derive(Clone, Copy, Debug, PartialEq, Eq)]
pub struct Overflow;

impl std::fmt::Display for Overflow {
    fn fmt(&self, f: &mut std::fmt::Formatter<'_>) -> std::fmt::Result {
        f.write_str(\"a number would leave 64 bits\")
    }
}

impl std::error::Error for Overflow {}

/// The number, where it has 64 bits.
fn narrow(number: i128) -> Result<i64, Overflow> {
    i64::try_from(number).map_err(|_| Overflow)
}
"
}

/// The error of calls that may be refused alone.
pub(crate) fn refused_bytes() -> &'static [u8]
    ensures { result.now ≡ REFUSED }
{
    b"
/// The guard was false, and the call did not wait, or not any longer. Nothing changed.
#[derive(Clone, Copy, Debug, PartialEq, Eq)]
pub struct Refused;

impl std::fmt::Display for Refused {
    fn fmt(&self, f: &mut std::fmt::Formatter<'_>) -> std::fmt::Result {
        f.write_str(\"the guard is false\")
    }
}

impl std::error::Error for Refused {}
"
}

/// The error of calls that may be refused, and may overflow.
pub(crate) fn failed_bytes() -> &'static [u8]
    ensures { result.now ≡ FAILED }
{
    b"
/// Why a call that tries, or has a time, has no answer.
#[derive(Clone, Copy, Debug, PartialEq, Eq)]
pub enum Failed {
    /// The guard was false, and the call did not wait, or not any longer. Nothing changed.
    Refused,
    /// A number would have left 64 bits.
    Overflow,
}

impl From<Overflow> for Failed {
    fn from(_: Overflow) -> Self {
        Self::Overflow
    }
}

impl std::fmt::Display for Failed {
    fn fmt(&self, f: &mut std::fmt::Formatter<'_>) -> std::fmt::Result {
        f.write_str(match self {
            Self::Refused => \"the guard is false\",
            Self::Overflow => \"a number would leave 64 bits\",
        })
    }
}

impl std::error::Error for Failed {}
"
}

/// A number of which it is known that it has 64 bits.
pub(crate) fn whole_bytes() -> &'static [u8]
    ensures { result.now ≡ WHOLE }
{
    b"
/// The number, of which it is proved that it has 64 bits.
#[allow(clippy::cast_possible_truncation)]
fn whole(number: i128) -> i64 {
    number as i64
}
"
}
