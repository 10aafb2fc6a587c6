ghost use Rattle.std.specs.Prelude.{◌≡◌, ◌≤◌, ◌+◌, ◌⊎◌, ◌↔◌, ℕ, List, [], Option, IfOk, IsOk};
ghost use Rattle.std.specs.Prelude.{IsErrOf, IsNone, Contains, length, take, option_map};
ghost use Rattle.std.specs.Prelude.{option_copied, OnSome};
ghost use Rattle.base_io.specs.FilesInMemory.{IsFailing, bytes_named};
ghost use Rattle.base_io.specs.Outside.{IsRead, Rises, most_faults, next_count};

use crate::files::{FileFault, Files};
use base_list::Seq;
use lang_base::Name;
use std::alloc::{AllocError, Global};
use std::marker::Model;

/// A file in memory.
#[derive(Debug, Drop)]
pub struct MemFile {
    /// Its name.
    pub name: Name,
    /// What it holds.
    pub bytes: Seq<u8>,
}

/// Files in memory, whose calls may be made to fail.
///
/// Contracts see the files, the numbers of the calls that fail, and how many calls were made and
/// failed.
#[derive(Debug, Drop)]
pub struct MemFiles {
    files: Vec<MemFile>,
    failing: Vec<u64>,
    calls: u64,
    faults: u64,
}

impl Model for MemFiles {
    ghost use Rattle.std.specs.Prelude.{◌≤◌};
    ghost use Rattle.base_io.specs.FilesInMemory.{FilesInMemory};
    ghost use Rattle.base_io.specs.Outside.{most_faults};

    ghost Value = { FilesInMemory };

    ghost view = { λ m. record {
      files = m.files.items;
      failing = m.failing.items;
      calls = m.calls;
      faults = m.faults;
    } };

    ghost invariant = { λ m. m.faults ≤ most_faults };
}

impl MemFiles {
    /// These files. Of two of one name the first is read. Call number `k`, from 1, fails where `k`
    /// is in `failing`. It takes no memory.
    pub fn open(files: Vec<MemFile>, failing: Vec<u64>) -> MemFiles
        ensures { result ≡ record {
          files = files.items;
          failing = failing.items;
          calls = 0;
          faults = 0;
        } }
    {
        MemFiles {
            files,
            failing,
            calls: 0,
            faults: 0,
        }
    }

    /// How many calls failed.
    pub fn faults(&self) -> u64
        ensures { result ≡ self.now.faults }
    {
        self.faults
    }
}

impl Files for MemFiles {
    ghost use Rattle.std.specs.Prelude.{⊤};
    ghost use Rattle.base_io.specs.FilesInMemory.{bytes_named};

    ghost seen = { λ m. record { held = bytes_named m.files; faults = m.faults } };

    ghost may_read = { λ _ _. ⊤ };

    fn read_up_to(&mut self, alloc: Global, name: &str, limit: u64) -> Result<Vec<u8>, FileFault>
        ensures told { IfOk result (λ bytes.
            IsRead (bytes_named self.old.files name.now) limit bytes.items) }
        ensures bound { IfOk result (λ bytes. length bytes.items ≤ limit + 1) }
        ensures cause { IsErrOf result FileFault.Failed → Rises self.old.faults self.new.faults }
        ensures later { self.old.faults ≤ self.new.faults }
        ensures counted { self.new.faults ≤ most_faults }
        ensures steady { IsOk result → self.new.faults ≡ self.old.faults }

        // The call fails exactly where it was asked to or the name isn't held, and is counted then.
        ensures failed { IsErrOf result FileFault.Failed
            ↔ IsFailing self.old self.new.calls name.now }
        ensures next { IsErrOf result FileFault.Failed
            → self.new.faults ≡ next_count self.old.faults }
        ensures same { ¬ IsErrOf result FileFault.Failed → self.new.faults ≡ self.old.faults }

        ensures calls { self.new.calls ≡ next_count self.old.calls }
        ensures files { self.new.files ≡ self.old.files }
        ensures failing { self.new.failing ≡ self.old.failing }
        ensures held { (n : List ℕ)
            → bytes_named self.new.files n ≡ bytes_named self.old.files n }
    {
        self.calls = self.calls.saturating_add(1);
        let Some(file) = readable(&self.files, &self.failing, self.calls, name) else {
            self.faults = self.faults.saturating_add(1);
            return Err(FileFault::Failed);
        };
        Ok(first_bytes(alloc, file.bytes.items(), limit)?)
    }
}

// The file that a call reads, or none where the call fails.
fn readable<'a>(files: &'a [MemFile], failing: &[u64], call: u64, name: &str) -> Option<&'a MemFile>
    ensures found { OnSome result
        (option_map (λ file. file.bytes) (option_copied result) ≡ bytes_named files.now name.now) }
    ensures fails { IsNone result ↔
        (Contains failing.now call ⊎ IsNone (bytes_named files.now name.now)) }
{
    if failing.contains(&call) {
        return None;
    }
    file_named(files, name)
}

// The first file of this name.
fn file_named<'a>(files: &'a [MemFile], name: &str) -> Option<&'a MemFile>
    ensures { option_map (λ file. file.bytes) (option_copied result)
        ≡ bytes_named files.now name.now }
{
    files
        .iter()
        .find(|file| file.name.bytes() == name.as_bytes())
}

// The first `limit + 1` of these bytes, or all where there are fewer.
fn first_bytes(alloc: Global, bytes: &[u8], limit: u64) -> Result<Vec<u8>, AllocError>
    ensures { IfOk result (λ v. v.items ≡ take (limit + 1) bytes.now) }
{
    let most = if limit < bytes.len() as u64 {
        limit as usize + 1
    } else {
        bytes.len()
    };
    Vec::from_slice(alloc, &bytes[..most])
}
