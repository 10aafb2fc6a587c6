ghost use Rattle.std.specs.Prelude.{◌≡◌, ◌<◌, ◌≤◌, IfOk, IfSome, IsOk, IsErrOf, take, vec_len};
ghost use Rattle.base_io.specs.inner.Reading.{Gives};
ghost use Rattle.base_io.specs.Outside.{Rises, most_faults};

use crate::files::{FileFault, Files};
use std::alloc::Global;
use std::fs::File;
use std::io;
use std::io::{ErrorKind, Read};
use std::marker::Model;

// How many bytes one read asks for at most.
const READ_BYTES: usize = 4096;

/// The files of the system. They tell no bytes. Contracts see the count of faults.
#[derive(Drop)]
pub struct RealFiles<'a, R> {
    rt: &'a R,
    faults: u64,
}

impl<'a, R> Model for RealFiles<'a, R> {
    ghost use Rattle.std.specs.Prelude.{◌≤◌, ℕ};
    ghost use Rattle.base_io.specs.Outside.{most_faults};

    ghost Value = { ℕ };

    ghost view = { λ files. files.faults };

    ghost invariant = { λ files. files.faults ≤ most_faults };
}

impl<'a, R> RealFiles<'a, R> {
    /// The files that this runtime reaches, with no fault yet.
    pub fn new(rt: &'a R) -> RealFiles<'a, R>
        ensures { result ≡ 0 }
    {
        RealFiles { rt, faults: 0 }
    }

    /// How many errors of the system were met.
    pub fn faults(&self) -> u64
        ensures { result ≡ self.now }
    {
        self.faults
    }
}

impl<'a, R: std::rt::Files> Files for RealFiles<'a, R> {
    ghost use Rattle.std.specs.Prelude.{None, ⊤};

    ghost seen = { λ count. record { held = λ _. None; faults = count } };

    ghost may_read = { λ _ _. ⊤ };

    fn read_up_to(&mut self, alloc: Global, name: &str, limit: u64) -> Result<Vec<u8>, FileFault> {
        match File::open(self.rt, name) {
            Ok(file) => read_file(file, alloc, limit.saturating_add(1), &mut self.faults),
            Err(error) => Err(note_fault(&mut self.faults, &error)),
        }
    }
}

// The first `most` bytes of the file, or all where there are fewer. Each turn takes a byte or more,
// or finds the end.
#[tactic(auto, using(crate::proofs::ReadBytes::consumes_none, crate::proofs::ReadBytes::consumes_on, crate::proofs::ReadBytes::first_whole, crate::proofs::ReadBytes::first_ended))]
fn read_file<F: Read + Drop>(
    mut file: F,
    alloc: Global,
    most: u64,
    faults: &mut u64,
) -> Result<Vec<u8>, FileFault>
    requires { faults.old ≤ most_faults }
    ensures first { IfOk result (λ bytes.
        IfSome (F.remaining file) (λ all. bytes.items ≡ take most all)) }
    ensures bound { IfOk result (λ bytes. vec_len bytes ≤ most) }
    ensures cause { IsErrOf result FileFault.Failed → Rises faults.old faults.new }
    ensures later { faults.old ≤ faults.new }
    ensures counted { faults.new ≤ most_faults }
    ensures steady { IsOk result → faults.new ≡ faults.old }
{
    let mut bytes = Vec::new(alloc);
    while (bytes.len() as u64) < most {
        let left = most - bytes.len() as u64;
        if read_some(&mut file, &mut bytes, left, faults)? == 0 {
            return Ok(bytes);
        }
    }
    Ok(bytes)
}

// One read, of at most `most` bytes, which go to the end of `bytes`. It answers how many came.
fn read_some<F: Read>(
    file: &mut F,
    bytes: &mut Vec<u8>,
    most: u64,
    faults: &mut u64,
) -> Result<usize, FileFault>
    requires some { 0 < most }
    requires counted { faults.old ≤ most_faults }
    ensures within { IfOk result (λ count. count ≤ most) }
    ensures given { IfOk result (λ count. Gives (F.remaining file.old) (F.remaining file.new)
        bytes.old.items bytes.new.items count) }
    ensures cause { IsErrOf result FileFault.Failed → Rises faults.old faults.new }
    ensures later { faults.old ≤ faults.new }
    ensures counted { faults.new ≤ most_faults }
    ensures steady { IsOk result → faults.new ≡ faults.old }
{
    let mut chunk = [0u8; READ_BYTES];
    let room = most.min(READ_BYTES as u64) as usize;
    match file.read(&mut chunk[..room]) {
        Ok(count) => {
            bytes.extend_from_slice(&chunk[..count])?;
            Ok(count)
        }
        Err(error) => Err(note_fault(faults, &error)),
    }
}

// Counts an error of the system. One for want of memory is told as such.
fn note_fault(faults: &mut u64, error: &io::Error) -> FileFault
    ensures risen { Rises faults.old faults.new }
    ensures later { faults.old ≤ faults.new }
    ensures counted { faults.new ≤ most_faults }
{
    *faults = faults.saturating_add(1);
    if error.kind() == ErrorKind::OutOfMemory {
        FileFault::OutOfMemory
    } else {
        FileFault::Failed
    }
}
