//! Client files in canonical form, which no command prints.

use base_io::MemSink;
use lang_base::limits::FILE_BYTES;
use lang_printer::print_clients;
use lang_syntax::parse_clients;
use lang_tokens::tokens;
use lang_tree::ClientsTree;
use std::alloc::Global;
use std::test::Fail;

/// The tree of a client file, where it is one.
fn tree_of(alloc: Global, text: &[u8]) -> Option<ClientsTree> {
    if text.len() > FILE_BYTES {
        return None;
    }
    let read = tokens(alloc, text).ok()?;
    parse_clients(alloc, text, &read).ok()
}

/// What is printed of a client file.
fn printed(alloc: Global, text: &[u8]) -> Result<MemSink, Fail> {
    let tree = tree_of(alloc, text).ok_or("clients")?;
    let mut out = MemSink::open(alloc, 4096, Vec::new(alloc))?;
    print_clients(&tree, &mut out)?;
    Ok(out)
}

const ON_ONE_LINE: &[u8] = b"client A{put(3,true);repeat 010{add(-01);try get();\
repeat 99999999999999999999999999999999{}}}client B{}";

const CANONICAL: &[u8] = b"client A {
  put(3, true);
  repeat 10 {
    add(-1);
    try get();
    repeat 99999999999999999999999999999999 {
    }
  }
}
client B {
}
";

#[test]
fn a_client_file_is_printed_in_canonical_form(rt: HostRuntime) -> Result<(), Fail> {
    for text in [ON_ONE_LINE, CANONICAL] {
        assert_eq!(rt; printed(rt.alloc(), text)?.bytes(), CANONICAL);
    }
    Ok(())
}
