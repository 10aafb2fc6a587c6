ghost use Rattle.std.specs.Prelude.{◌≡◌, ◌≤◌, ◌+◌, ◌↔◌, ℕ, List, Option, IfOk, IsOk, IsErrOf};
ghost use Rattle.std.specs.Prelude.{length};
ghost use Rattle.base_io.specs.declared.files.FileFault.TheVariants.{OutOfMemory};
ghost use Rattle.base_io.specs.Outside.{FilesSeen, IsRead, Rises, most_faults};

use std::alloc::{AllocError, AllocFailed, Global};
use thiserror::Error;

/// Why a file gave no bytes.
#[derive(Debug, Drop, Clone, Copy, PartialEq, Eq, Error)]
pub enum FileFault {
    /// The file isn't there, or reading it failed. The count of faults rose.
    #[error("the file can't be read")]
    Failed,
    /// There was no memory for the bytes.
    #[error("out of memory")]
    OutOfMemory,
}

impl From<AllocError> for FileFault {
    ghost from_gives = { λ _ e. e ≡ OutOfMemory };

    fn from(_: AllocError) -> Self {
        FileFault::OutOfMemory
    }
}

impl<T: Drop> From<AllocFailed<T>> for FileFault {
    ghost from_gives = { λ _ e. e ≡ OutOfMemory };

    fn from(_: AllocFailed<T>) -> Self {
        FileFault::OutOfMemory
    }
}

/// Files that are read by name.
pub trait Files {
    /// What is seen of the files: the bytes of each name, where they are told, and how many faults
    /// rose. The count stays at 2^64 - 1 once it is reached.
    ghost seen: { Self → FilesSeen };

    /// The names that may be asked for.
    ghost may_read: { Self → List ℕ → Type 0 };

    /// The first `limit + 1` bytes of the file of this name, or all where there are fewer: so an
    /// answer longer than `limit` says that the file is too long.
    ///
    /// `Failed` comes only where the count of faults rose in this call, and it rises in no call
    /// that gives bytes. With `OutOfMemory` it may have risen, where the system ran out of memory.
    fn read_up_to(&mut self, alloc: Global, name: &str, limit: u64) -> Result<Vec<u8>, FileFault>
        requires { may_read self.old name.now }
        ensures told { IfOk result (λ bytes.
            IsRead ((seen self.old).held name.now) limit bytes.items) }
        ensures bound { IfOk result (λ bytes. length bytes.items ≤ limit + 1) }
        ensures cause { IsErrOf result FileFault.Failed →
            Rises (seen self.old).faults (seen self.new).faults }
        ensures later { (seen self.old).faults ≤ (seen self.new).faults }
        ensures counted { (seen self.new).faults ≤ most_faults }
        ensures steady { IsOk result → (seen self.new).faults ≡ (seen self.old).faults }
        ensures held { (n : List ℕ) → (seen self.new).held n ≡ (seen self.old).held n }
        ensures may_read { (n : List ℕ) → may_read self.new n ↔ may_read self.old n };
}
