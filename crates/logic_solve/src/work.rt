//! How much is done for a cube.

/// Of a cube at most so many rows are added, or looked at to choose a whole number. That of a
/// monitor's query takes some hundreds.
const MOST_WORK: usize = 65_536;

/// The work that may still be done.
#[derive(Clone, Copy, Debug)]
pub(crate) struct Work {
    left: usize,
}

impl Work {
    /// All of it.
    pub(crate) fn all() -> Work {
        Work { left: MOST_WORK }
    }

    /// Whether so much may be done, which then is done.
    pub(crate) fn takes(&mut self, much: usize) -> bool {
        if self.left < much {
            return false;
        }
        self.left -= much;
        true
    }
}
