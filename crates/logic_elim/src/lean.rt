//! Chains in which each made row is needed.

ghost use Rattle.std.specs.Prelude.{◌≡◌, IfOk, List, Option, length, map, true};
ghost use Rattle.std.specs.List.{list_any};
ghost use Rattle.logic_linear.specs.Linear.{Linear};
ghost use Rattle.logic_cert.specs.Refutes.{chain_closes};
ghost use Rattle.logic_elim.specs.LeanChains.{is_needed, uses, IsLean};
ghost use Rattle.logic_elim.specs.inner.Leaving.{renumbered, with_sum, without};

use logic_cert::Combine;
use std::alloc::{AllocError, Global};

/// Whether the sum is made of the row of this number.
fn uses(number: u64, combine: Combine) -> bool
    ensures { result ≡ uses number combine }
{
    u64::from(combine.left) == number || u64::from(combine.right) == number
}

/// Whether one of the sums is made of that row.
fn is_used(number: u64, later: &[Combine]) -> bool
    ensures { result ≡ list_any (uses number) later.now }
{
    later.iter().any(|combine| uses(number, *combine))
}

/// Whether that row is the last one, or one of the later sums is made of it.
fn is_needed(number: u64, later: &[Combine]) -> bool
    ensures { result ≡ is_needed number later.now }
{
    match later {
        [] => true,
        _ => is_used(number, later),
    }
}

/// A row's number once the row of the first number is left out.
fn renumbered(number: u64, row: u32) -> u32
    ensures { result ≡ renumbered number row }
{
    if number < u64::from(row) {
        row - 1
    } else {
        row
    }
}

/// The sum once the row of the number is left out.
fn without(number: u64, combine: Combine) -> Combine
    ensures { result ≡ without number combine }
{
    Combine {
        left: renumbered(number, combine.left),
        left_times: combine.left_times,
        right: renumbered(number, combine.right),
        right_times: combine.right_times,
    }
}

/// Leaves the row of the number out.
fn leave_out(number: u64, later: &mut [Combine])
    ensures { later.new ≡ map (without number) later.old }
{
    for i in 0..later.len() {
        later[i] = without(number, later[i]);
    }
}

/// Puts the sum of the number before the later ones, or leaves it out where none of them needs it.
fn put_before(number: u64, combine: Combine, later: &mut Vec<Combine>) -> Result<(), AllocError>
    ensures { IfOk result (λ done. later.new.items ≡ with_sum number combine later.old.items) }
{
    if is_needed(number, later) {
        later.insert(0, combine)?;
        return Ok(());
    }
    leave_out(number, later);
    Ok(())
}

/// The chain without the sums that no later one needs, from the last one back. The first made row
/// has the number.
///
/// What is kept are the few sums that the last row is made of, so they are looked through one by
/// one. It fails only for want of memory.
pub fn lean_chain(
    alloc: Global,
    first: u32,
    combines: Vec<Combine>,
) -> Result<Vec<Combine>, AllocError>
    ensures closes { IfOk result (λ kept. (rows : List (Option Linear)) → length rows ≡ first
        → chain_closes combines.items rows ≡ true → chain_closes kept.items rows ≡ true) }
    ensures lean { IfOk result (λ kept. IsLean first kept.items) }
{
    let mut left = combines;
    let mut kept = Vec::new(alloc);
    while let Some(combine) = left.pop() {
        let number = u64::from(first) + left.len() as u64;
        put_before(number, combine, &mut kept)?;
    }
    Ok(kept)
}
