//! Guards in trees: where they begin, and how they are shown.

use lang_base::limits::FILE_BYTES;
use lang_forms::first_place;
use lang_printer::shown_text;
use lang_syntax::parse_monitor;
use lang_tokens::tokens;
use lang_tree::{BlockTree, MonitorTree};
use std::alloc::Global;
use std::test::Fail;

/// The tree of a monitor file, where it is one.
fn tree_of(alloc: Global, text: &[u8]) -> Option<MonitorTree> {
    if text.len() > FILE_BYTES {
        return None;
    }
    let read = tokens(alloc, text).ok()?;
    parse_monitor(alloc, text, &read).ok()
}

/// The first block of the first method.
fn first_block(tree: &MonitorTree) -> Option<&BlockTree> {
    tree.methods.items().first()?.blocks.items().first()
}

/// Where the guard of the first block begins.
fn guard_begins(alloc: Global, text: &[u8]) -> Result<u32, Fail> {
    let tree = tree_of(alloc, text).ok_or("a monitor")?;
    let block = first_block(&tree).ok_or("a block")?;
    Ok(first_place(&block.guard))
}

#[test]
fn parentheses_begin_no_expression(rt: HostRuntime) -> Result<(), Fail> {
    for (text, place) in [
        (
            b"monitor M { method m() waituntil (a < b) { } }".as_slice(),
            34,
        ),
        (
            b"monitor M { method m() waituntil (((a + b) * 2 < c) && d || e) { } }",
            36,
        ),
        (
            b"monitor M { method m() waituntil (((-a) - b == 2)) { } }",
            36,
        ),
        (b"monitor M { method m() waituntil ((!(a))) { } }", 35),
    ] {
        assert_eq!(rt; guard_begins(rt.alloc(), text)?, place);
    }
    Ok(())
}

/// How the guard of the first block is shown.
fn guard_shown(alloc: Global, text: &[u8]) -> Result<Vec<u8>, Fail> {
    let tree = tree_of(alloc, text).ok_or("a monitor")?;
    let block = first_block(&tree).ok_or("a block")?;
    Ok(shown_text(alloc, &block.guard)?)
}

const MANY_PARENTHESES: &[u8] = b"monitor M { method m() waituntil ((((a+b)*2)<c)&&!(d||e)) { } }";

const FEW_PARENTHESES: &[u8] = b"(a + b) * 2 < c && !(d || e)";

#[test]
fn a_guard_is_shown_in_canonical_form(rt: HostRuntime) -> Result<(), Fail> {
    let shown = guard_shown(rt.alloc(), MANY_PARENTHESES)?;
    assert_eq!(rt; shown.as_slice(), FEW_PARENTHESES);
    Ok(())
}
