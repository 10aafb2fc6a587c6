//! What is asked of a block and a condition.

/// A question on a block and a condition whose wake-ups may be counted by a row of its guard, where
/// the kept candidates hold before the block. Blocks are numbered from 0, conditions and rows from
/// 1, and rows in reading order.
#[derive(Clone, Copy, Debug, PartialEq, Eq)]
pub enum Question {
    /// With no note on the condition the block leaves it counted: where its guard was true, no more
    /// clients may pass than before, and one less where the block waits at it.
    Counts {
        condition: u32,
        row: u32,
        block: u32,
    },
    /// With one signal on the condition the block leaves it counted: where its guard was true, one
    /// client more may pass than with no note.
    Gives {
        condition: u32,
        row: u32,
        block: u32,
    },
    /// Where the condition's guard was false, at most one client may pass after the block.
    First {
        condition: u32,
        row: u32,
        block: u32,
    },
}
