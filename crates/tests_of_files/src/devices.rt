//! The files of the system, and a sink in memory for which there is no memory.

use base_io::{FileFault, Files, MemSink, RealFiles};
use std::alloc::Global;
use std::test::Fail;
use std::{env, fs, process};

/// A read through the bound, as generic callers make it.
fn read<F: Files>(
    files: &mut F,
    alloc: Global,
    name: &str,
    limit: u64,
) -> Result<Vec<u8>, FileFault>
    requires { F.may_read files.old name.now }
{
    files.read_up_to(alloc, name, limit)
}

#[test]
fn a_sink_in_memory_of_all_the_numbers_has_no_memory(rt: HostRuntime) {
    assert!(rt; MemSink::open(rt.alloc(), u64::MAX, Vec::new(rt.alloc())).is_err());
}

#[test]
fn real_files_read_up_to_a_limit_and_count_faults(rt: HostRuntime) -> Result<(), Fail> {
    let folder = env::temp_dir(&rt)?;
    let name = format!(in rt.alloc(); "base_io-{}", process::id(rt.process()))?;
    let path = folder.join(rt.alloc(), name.as_str())?;
    let text = path
        .as_path()
        .to_str()
        .ok_or("a folder whose name is text")?;
    let long = vec![in rt.alloc(); 7u8; 10000]?;
    let mut files = RealFiles::new(&rt);
    assert_eq!(rt;
        read(&mut files, rt.alloc(), text, 9),
        Err(FileFault::Failed),
        "not there yet"
    );
    fs::write(&rt, text, "0123456789")?;
    let whole = read(&mut files, rt.alloc(), text, 10);
    let front = read(&mut files, rt.alloc(), text, 4);
    fs::write(&rt, text, long)?;
    let in_pieces = read(&mut files, rt.alloc(), text, 9000);
    fs::remove_file(&rt, text)?;
    assert_eq!(rt; whole?.as_slice(), b"0123456789".as_slice());
    assert_eq!(rt; front?.as_slice(), b"01234".as_slice());
    assert_eq!(rt; in_pieces?.len(), 9001);
    assert_eq!(rt;
        read(&mut files, rt.alloc(), "/", 9),
        Err(FileFault::Failed),
        "a folder"
    );
    assert_eq!(rt; files.faults(), 2);
    Ok(())
}
