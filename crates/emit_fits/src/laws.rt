//! What follows from the definitions alone.

ghost use Rattle.emit_fits.specs.Laws.{FittingBlocksNeverOverflow, FittingCallsNeverOverflow};
ghost use Rattle.emit_fits.specs.Laws.{MomentsStayIn64};

/// Where the fields and locals begin within 64 bits, and so are the arguments of all calls, the
/// fields and locals are within 64 bits at each moment of each execution.
pub fn moments_stay_in_64()
    ensures { MomentsStayIn64 }
{}

/// There, under a plan that is lawful by counting, a move that runs the body of a block that fits
/// under what the plan keeps does not overflow; so no call of a method all of whose blocks fit has
/// an overflow for its answer.
pub fn fitting_blocks_never_overflow()
    ensures blocks { FittingBlocksNeverOverflow }
    ensures calls { FittingCallsNeverOverflow }
{}
