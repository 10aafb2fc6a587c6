//! Files that keep what was read of them.

ghost use Rattle.std.specs.Prelude.{◌≡◌};

use base_io::{FileFault, Files};
use std::alloc::{AllocError, Global};

/// What was read of a file.
#[derive(Debug, Drop)]
struct KeptFile {
    name: Vec<u8>,
    bytes: Vec<u8>,
}

/// Files whose bytes are kept where they are read, as far as there is memory. Contracts see them as
/// the files that they stand for.
#[derive(Debug, Drop)]
pub struct KeptFiles<F> {
    /// The files that they stand for.
    pub files: F,
    kept: Vec<KeptFile>,
}

impl<F> KeptFiles<F> {
    /// These files, of which nothing was read yet.
    pub fn new(alloc: Global, files: F) -> KeptFiles<F>
        ensures { result.files ≡ files }
    {
        KeptFiles {
            files,
            kept: Vec::new(alloc),
        }
    }

    /// What was read of the file of this name, where it was kept.
    pub(crate) fn bytes_of(&self, name: &str) -> Option<&[u8]> {
        for file in self.kept.as_slice() {
            if file.name.as_slice() == name.as_bytes() {
                return Some(file.bytes.as_slice());
            }
        }
        None
    }
}

impl<F: Files> Files for KeptFiles<F> {
    ghost seen = { λ kept. F.seen kept.files };

    ghost may_read = { λ kept. F.may_read kept.files };

    fn read_up_to(&mut self, alloc: Global, name: &str, limit: u64) -> Result<Vec<u8>, FileFault> {
        let read = self.files.read_up_to(alloc, name, limit);
        if let Ok(bytes) = &read {
            keep(alloc, &mut self.kept, name, bytes.as_slice());
        }
        read
    }
}

/// Keeps a copy of what was read, where there is memory.
fn keep(alloc: Global, kept: &mut Vec<KeptFile>, name: &str, bytes: &[u8]) {
    if let Ok(file) = copy_of(alloc, name, bytes) {
        let _kept = kept.push(file).is_ok();
    }
}

/// A copy of what was read.
fn copy_of(alloc: Global, name: &str, bytes: &[u8]) -> Result<KeptFile, AllocError> {
    Ok(KeptFile {
        name: Vec::from_slice(alloc, name.as_bytes())?,
        bytes: Vec::from_slice(alloc, bytes)?,
    })
}
