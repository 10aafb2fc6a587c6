//! What follows from the definitions alone.

ghost use Rattle.emit_method.specs.Laws.{FunctionsRunLast};

/// A method for calls that are given a function calls it with the body after which no other comes
/// in the code of these calls, and with no other body: so with the one with which it runs by the
/// laws of `emit_code`. The method was checked with as many blocks as are written in it.
pub fn functions_run_last()
    ensures { FunctionsRunLast }
{}
