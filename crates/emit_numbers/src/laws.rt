//! What follows from the definitions alone.

ghost use Rattle.emit_numbers.specs.Laws.{PrintedBodiesStep, PrintedNumbersAreWide};
ghost use Rattle.emit_numbers.specs.Laws.{PrintedTestsHold, SharedTestsHold, StartsAreShort};
ghost use Rattle.emit_numbers.specs.Laws.{WorksOutPlainly};

/// A call of the function that is printed of a block's body does the block's step: it answers an
/// overflow just where a value that is assigned or answered leaves 64 bits, and the state is then
/// as it was, whether the body works on a copy of it or not; else state, locals and answer are
/// those of the body. A body that is printed without `Result` answers no overflow. Values that are
/// not tested have 64 bits where what is read has: so do all values at the start, whatever the
/// parameters are with which a monitor is opened, and those that a call leaves. A block that is printed whole does its step too, where no value of it leaves 64
/// bits: then each number that it works out in 64 bits has as many.
pub fn printed_bodies_step()
    ensures steps { PrintedBodiesStep }
    ensures starts { StartsAreShort }
{}

/// No number that an expression makes on the way, from left to right, leaves 128 bits, of a tree
/// that is parsed from a file and breaks no rule, where state, arguments and locals have 64 bits.
pub fn printed_numbers_are_wide()
    ensures wide { PrintedNumbersAreWide }
    ensures plain { WorksOutPlainly }
{}

/// A call of the function that is printed of a block's guard answers whether the guard is true: of a
/// guard that reads inputs, or that a method asserts, it takes them. Another one is printed without
/// them, once for its condition: it answers whether the condition's guard is true, which is that of
/// each block of the condition at whatever inputs. The numbers that it makes on the way are those
/// of [`printed_numbers_are_wide`], without inputs.
pub fn printed_tests_hold()
    ensures own { PrintedTestsHold }
    ensures shared { SharedTestsHold }
{}
