//! The texts of openings that are the same in every module.

ghost use Rattle.std.specs.Prelude.{◌≡◌};
ghost use Rattle.emit_choices.specs.Fixed.{ADMITS_HEAD, CHOSEN_DATA_HEAD, CHOSEN_INNER, NEW};
ghost use Rattle.emit_choices.specs.Fixed.{CHOSEN_NEW_HEAD, WITH_DATA};

/// The monitor with no data, and the end of its `impl`.
pub(crate) fn new_bytes() -> &'static [u8]
    ensures { result.now ≡ NEW }
{
    b"    /// The monitor at its start.
    #[must_use]
    pub const fn new() -> Self {
        Self::with_data(())
    }
}

"
}

/// The monitor with data, up to the counts at their start.
pub(crate) fn with_data_bytes() -> &'static [u8]
    ensures { result.now ≡ WITH_DATA }
{
    b"    /// The monitor at its start, with these data.
    #[must_use]
    pub const fn with_data(data: D) -> Self {
        Self {
            inner: Mutex::new(Inner {
                state: State::START,
"
}

/// What stands after the condition on parameters, up to what its test takes.
pub(crate) fn admits_head() -> &'static [u8]
    ensures { result.now ≡ ADMITS_HEAD }
{
    b"`.
    #[must_use]
    #[allow(unused_comparisons, clippy::all, clippy::pedantic)]
    pub const fn admits("
}

/// What stands after the docs of a monitor with no data, up to the parameters that it takes.
pub(crate) fn chosen_new_head() -> &'static [u8]
    ensures { result.now ≡ CHOSEN_NEW_HEAD }
{
    b"    #[must_use]
    #[track_caller]
    #[allow(clippy::similar_names, clippy::too_many_arguments)]
    pub const fn new("
}

/// The same of one with data.
pub(crate) fn chosen_data_head() -> &'static [u8]
    ensures { result.now ≡ CHOSEN_DATA_HEAD }
{
    b"    #[must_use]
    #[track_caller]
    #[allow(clippy::similar_names, clippy::too_many_arguments)]
    pub const fn with_data("
}

/// What stands after the test of parameters, up to those that the state is given.
pub(crate) fn chosen_inner() -> &'static [u8]
    ensures { result.now ≡ CHOSEN_INNER }
{
    b"        Self {
            inner: Mutex::new(Inner {
                state: State::start("
}
