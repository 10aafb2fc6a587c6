//! Outlines read from the texts of certificates.

ghost use Rattle.std.specs.Prelude.{◌≡◌, ◌≤◌, ◌^◌, ◌++◌, List, ℕ, codes, option_map, reverse};
ghost use Rattle.std.specs.Prelude.{IfOk, OnOk};
ghost use Rattle.logic_cert.specs.CertText.{cert_text, combine_text};
ghost use Rattle.logic_outline.specs.Outlines.{HasTypedNumbers, IsCombine, IsForm, IsTyped};
ghost use Rattle.logic_outline.specs.Readings.{IsRead};
ghost use Rattle.logic_outline.specs.inner.Parts.{AreCombines, chain_text, clash_text};
ghost use Rattle.logic_outline.specs.inner.Parts.{combines_text, IsAfter, IsBelow, IsChain};
ghost use Rattle.logic_outline.specs.inner.Parts.{IsClash, IsOpened, IsPair, IsResumed};
ghost use Rattle.logic_outline.specs.inner.Parts.{later_after, later_node, later_number};
ghost use Rattle.logic_outline.specs.inner.Parts.{node_text, pair_text, sides_text};

use super::forms::sides;
use super::numbers::{after, count, multiple, row};
use super::outline::{Node, Outline};
use base_list::Seq;
use logic_cert::{Cert, Combine};
use logic_linear::Lin;
use std::alloc::{AllocError, Global};

/// The certificate at the front of the bytes, and the bytes after it (`specs/Readings`). It is none
/// where the text of no certificate stands there, with numbers of their types. It fails only for
/// want of memory.
///
/// Where the bytes are the text of a certificate, and then what begins with no digit, as a line
/// feed, then that certificate was read, and what follows it is what is left: the clause `again` of
/// `IsRead`, which leaves nothing to prove about other certificates. Memory is taken for parts that
/// were found, and not by a count that stands there.
pub fn read_outline<'a>(
    alloc: Global,
    bytes: &'a [u8],
) -> Result<Option<(Outline, &'a [u8])>, AllocError>
    ensures { IfOk result (IsRead cert_text HasTypedNumbers bytes.now) }
{
    let Some((first, rest)) = node(alloc, bytes)? else {
        return Ok(None);
    };
    let mut later = Vec::new(alloc);
    let Some((mut due, mut left)) = after_node(&first, 1, &mut later, rest)? else {
        return Ok(None);
    };
    let mut nodes = Vec::new(alloc);
    nodes.push(first)?;
    while due > 0 {
        let Some((node, rest)) = later_node(alloc, left)? else {
            return Ok(None);
        };
        let Some((count, rest)) = after_node(&node, due, &mut later, rest)? else {
            return Ok(None);
        };
        nodes.push(node)?;
        due = count;
        left = rest;
    }
    Ok(Some((Outline::of(nodes), left)))
}

/// How many certificates come at once after the node, and the bytes from there, where so many came
/// with it; on the list it keeps how many come after each word of a second side, the next one last.
/// It is none where there are more than bytes, or where that word is due and does not stand there.
fn after_node<'a>(
    node: &Node,
    due: usize,
    later: &mut Vec<usize>,
    bytes: &'a [u8],
) -> Result<Option<(usize, &'a [u8])>, AllocError>
    requires { 1 ≤ due }
    ensures { IfOk result
        (IsAfter node.now due (reverse later.old.items) bytes.now (reverse later.new.items)) }
{
    match opened(node, due, bytes.len()) {
        None => Ok(None),
        Some(count) => {
            put_later(node, due, later)?;
            Ok(resumed(count, later, bytes))
        }
    }
}

/// How many certificates come at once after the node, where so many came with it. It is none where
/// they are more than there are bytes.
fn opened(node: &Node, due: usize, bytes: usize) -> Option<usize>
    requires { 1 ≤ due }
    ensures { IsOpened node.now due bytes result }
{
    let count = match node {
        Node::Parts(count) => (due - 1).checked_add(*count as usize),
        Node::End(_) => Some(due - 1),
        Node::Sides(_) => Some(1),
    };
    match count {
        Some(count) if count <= bytes => Some(count),
        _ => None,
    }
}

/// Keeps how many certificates come after the word of the second side, where the node makes cases.
fn put_later(node: &Node, due: usize, later: &mut Vec<usize>) -> Result<(), AllocError>
    ensures { OnOk result
        (reverse later.new.items ≡ later_after node.now due (reverse later.old.items)) }
{
    match node {
        Node::Parts(_) => {}
        Node::End(_) => {}
        Node::Sides(_) => later.push(due)?,
    }
    Ok(())
}

/// Goes on with what comes after the word of the second side, where none comes before it.
fn resumed<'a>(count: usize, later: &mut Vec<usize>, bytes: &'a [u8]) -> Option<(usize, &'a [u8])>
    ensures { IsResumed count (reverse later.old.items) bytes.now (reverse later.new.items) result }
{
    if count > 0 {
        return Some((count, bytes));
    }
    match later.pop() {
        None => Some((0, bytes)),
        Some(due) => after_word(due, after(b" above", bytes)),
    }
}

/// So many certificates, and the bytes after a word that was found.
fn after_word<'a>(due: usize, rest: Option<&'a [u8]>) -> Option<(usize, &'a [u8])>
    ensures { result ≡ option_map (λ one. (due, one)) rest.entry }
{
    match rest {
        None => None,
        Some(rest) => Some((due, rest)),
    }
}

/// A node after a blank.
fn later_node<'a>(alloc: Global, bytes: &'a [u8]) -> Result<Option<(Node, &'a [u8])>, AllocError>
    ensures { IfOk result (IsRead later_node IsTyped bytes.now) }
{
    match after(b" ", bytes) {
        Some(rest) => node(alloc, rest),
        None => Ok(None),
    }
}

/// The node at the front of the bytes.
fn node<'a>(alloc: Global, bytes: &'a [u8]) -> Result<Option<(Node, &'a [u8])>, AllocError>
    ensures { IfOk result (IsRead node_text IsTyped bytes.now) }
{
    if let Some(rest) = after(b"split", bytes) {
        return Ok(split_node(count(rest)));
    }
    if let Some(rest) = after(b"clash", bytes) {
        return Ok(clash_node(clash(rest)));
    }
    if let Some(rest) = after(b"cases", bytes) {
        return Ok(sides_node(sides(alloc, rest)?));
    }
    match after(b"chain", bytes) {
        Some(rest) => Ok(chain_node(chain(alloc, rest)?)),
        None => Ok(None),
    }
}

/// The split into as many parts as were read.
fn split_node<'a>(read: Option<(u64, &'a [u8])>) -> Option<(Node, &'a [u8])>
    ensures { (rest bytes : List ℕ) → codes "split" ++ rest ≡ bytes
        → IsRead later_number (IsBelow (2 ^ 64)) rest read.entry
        → IsRead node_text IsTyped bytes result }
{
    match read {
        Some((count, rest)) => Some((Node::Parts(count), rest)),
        None => None,
    }
}

/// The clash of the rows that were read.
fn clash_node<'a>(read: Option<((u32, u32), &'a [u8])>) -> Option<(Node, &'a [u8])>
    ensures { (rest bytes : List ℕ) → codes "clash" ++ rest ≡ bytes
        → IsRead clash_text IsClash rest read.entry
        → IsRead node_text IsTyped bytes result }
{
    match read {
        Some(((left, right), rest)) => Some((Node::End(Cert::Clash { left, right }), rest)),
        None => None,
    }
}

/// The chain of the made rows that were read.
fn chain_node<'a>(read: Option<(Seq<Combine>, &'a [u8])>) -> Option<(Node, &'a [u8])>
    ensures { (rest bytes : List ℕ) → codes "chain" ++ rest ≡ bytes
        → IsRead chain_text IsChain rest read.entry
        → IsRead node_text IsTyped bytes result }
{
    match read {
        Some((combines, rest)) => Some((Node::End(Cert::Chain(combines)), rest)),
        None => None,
    }
}

/// The cases of the form that was read.
fn sides_node<'a>(read: Option<(Lin, &'a [u8])>) -> Option<(Node, &'a [u8])>
    ensures { (rest bytes : List ℕ) → codes "cases" ++ rest ≡ bytes
        → IsRead sides_text IsForm rest read.entry
        → IsRead node_text IsTyped bytes result }
{
    match read {
        Some((form, rest)) => Some((Node::Sides(form), rest)),
        None => None,
    }
}

/// The two rows of a clash, after its word.
fn clash<'a>(bytes: &'a [u8]) -> Option<((u32, u32), &'a [u8])>
    ensures { IsRead clash_text IsClash bytes.now result }
{
    let (left, rest) = row(bytes)?;
    let (right, rest) = row(rest)?;
    Some(((left, right), rest))
}

/// The made rows of a chain, after its word.
fn chain<'a>(alloc: Global, bytes: &'a [u8]) -> Result<Option<(Seq<Combine>, &'a [u8])>, AllocError>
    ensures { IfOk result (IsRead chain_text IsChain bytes.now) }
{
    match count(bytes) {
        Some((count, rest)) => combines(alloc, count, rest),
        None => Ok(None),
    }
}

/// So many made rows. Memory is taken for those that were found alone.
fn combines<'a>(
    alloc: Global,
    count: u64,
    bytes: &'a [u8],
) -> Result<Option<(Seq<Combine>, &'a [u8])>, AllocError>
    ensures { IfOk result (IsRead combines_text (AreCombines count) bytes.now) }
{
    let mut combines = Vec::new(alloc);
    let mut left = bytes;
    for _turn in 0..count {
        match combine(left) {
            Some((combine, rest)) => {
                combines.push(combine)?;
                left = rest;
            }
            None => return Ok(None),
        }
    }
    Ok(Some((Seq::of(combines), left)))
}

/// A made row: its four numbers.
fn combine<'a>(bytes: &'a [u8]) -> Option<(Combine, &'a [u8])>
    ensures { IsRead combine_text IsCombine bytes.now result }
{
    let ((left, left_times), rest) = multiple(bytes)?;
    let ((right, right_times), rest) = multiple(rest)?;
    let combine = Combine {
        left,
        left_times,
        right,
        right_times,
    };
    Some((combine, rest))
}
