//! What costs something in a plan, and why it is there.

ghost use Rattle.std.specs.Prelude.{◌≡◌};
ghost use Rattle.plan_why.specs.Things.{claim_of, is_block_of};

use lang_monitor::Claim;
use logic_solve::Solution;

/// A thing of a plan that costs something. Blocks are numbered from 0, conditions from 1.
#[derive(Clone, Copy, Debug)]
pub enum Thing {
    /// The block has a note on the condition.
    Note { block: u32, condition: u32 },
    /// The condition reads no inputs, and is of kind broadcast.
    Broadcast { condition: u32 },
    /// The block has a tested note on the condition.
    Test { block: u32, condition: u32 },
}

/// Whether a thing is needed.
#[derive(Debug, Drop)]
pub enum Answer {
    /// It is: the triple that would spare it fails at the valuation `before` the body of the block.
    /// The valuation after the body is given unless a number on the way leaves 128 bits.
    Shown {
        block: u32,
        before: Solution,
        after: Option<Solution>,
    },
    /// That was not decided.
    Undecided,
}

/// A thing, and why it is there.
#[derive(Debug, Drop)]
pub struct Reason {
    pub thing: Thing,
    pub answer: Answer,
}

/// Whether the block of this number, which waits at this condition, is one that the thing is about.
pub fn is_block_of(thing: Thing, block: u32, waits: u32) -> bool
    ensures { result ≡ is_block_of thing block waits }
{
    match thing {
        Thing::Note { block: own, .. } => own == block,
        Thing::Broadcast { condition } => condition == waits,
        Thing::Test { block: own, .. } => own == block,
    }
}

/// The claim that would spare the thing, after the block.
pub(crate) fn claim_of(thing: Thing, block: u32) -> Claim
    ensures { result ≡ claim_of thing block }
{
    match thing {
        Thing::Note { condition, .. } => Claim::NoNote { block, condition },
        Thing::Broadcast { condition } => Claim::One { condition, block },
        Thing::Test { condition, .. } => Claim::NoTest { block, condition },
    }
}
