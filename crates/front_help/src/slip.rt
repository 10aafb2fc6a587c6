//! Where a text stops being one that is read byte for byte.

use std::alloc::{AllocError, Global};

/// The first place at which a text isn't as a plan or a report prints it, and what may stand there.
#[derive(Debug, Drop)]
pub(crate) struct Slip {
    pub(crate) at: usize,
    pub(crate) expected: Vec<u8>,
    pub(crate) said: &'static [u8],
}

/// A slip where these bytes are expected.
pub(crate) fn expecting(alloc: Global, at: usize, expected: &[u8]) -> Result<Slip, AllocError> {
    Ok(Slip {
        at,
        expected: Vec::from_slice(alloc, expected)?,
        said: b"",
    })
}

/// A slip of which this is said.
pub(crate) fn saying(alloc: Global, at: usize, said: &'static [u8]) -> Slip {
    Slip {
        at,
        expected: Vec::new(alloc),
        said,
    }
}
