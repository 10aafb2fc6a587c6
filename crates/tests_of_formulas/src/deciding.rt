//! Which cubes are light, and which of them have a solution in fractions.

ghost use Rattle.std.specs.Prelude.{◌≡◌, IfOk};
ghost use Rattle.logic_elim.specs.Chains.{rows_in};

use super::shapes::form;
use logic_cert::WideRow;
use logic_elim::{Numbered, Rows, decide, is_light};
use logic_linear::Lin;
use std::alloc::{AllocError, Global};
use std::test::Fail;

/// A row told by plain data: places with their numbers, and a constant.
type Told<'a> = (&'a [(u32, i128)], i128);

/// The rows that are told.
fn rows_of(alloc: Global, told: &[Told]) -> Result<Vec<Lin>, Fail> {
    let mut rows = Vec::new(alloc);
    for (terms, constant) in told {
        rows.push(form(alloc, terms, *constant)?)?;
    }
    Ok(rows)
}

/// The row under a number that nothing reads.
fn unnumbered(alloc: Global, row: &Lin) -> Result<Numbered, AllocError>
    ensures { IfOk result (λ one. one.row ≡ row.now) }
{
    let row = WideRow::of_form(alloc, row)?;
    Ok(Numbered { number: 0, row })
}

/// The rows as the engine keeps them.
fn kept_rows(alloc: Global, rows: &[Lin]) -> Result<Rows, AllocError>
    ensures { IfOk result (λ kept. rows_in kept ≡ rows.now) }
{
    let mut kept = Vec::new(alloc);
    for i in 0..rows.len() {
        kept.push(unnumbered(alloc, &rows[i])?)?;
    }
    Rows::of(alloc, 1, kept)
}

/// Whether the rows are a light cube.
fn are_light(alloc: Global, told: &[Told]) -> Result<bool, Fail> {
    let rows = rows_of(alloc, told)?;
    let kept = kept_rows(alloc, &rows)?;
    Ok(is_light(alloc, &kept)?)
}

/// The length of the chain that refutes the rows, and none where they are no light cube or have a
/// solution in fractions.
fn chain_length(alloc: Global, rows: &[Lin]) -> Result<Option<usize>, AllocError> {
    let kept = kept_rows(alloc, rows)?;
    if !is_light(alloc, &kept)? {
        return Ok(None);
    }
    match decide(alloc, rows)? {
        None => Ok(None),
        Some(chain) => Ok(Some(chain.len())),
    }
}

/// The same of the rows that are told.
fn sums_made(alloc: Global, told: &[Told]) -> Result<Option<usize>, Fail> {
    let rows = rows_of(alloc, told)?;
    Ok(chain_length(alloc, &rows)?)
}

#[test]
fn one_half_is_a_solution(rt: HostRuntime) -> Result<(), Fail> {
    for (constant, made) in [(1, None), (2, Some(1))] {
        let rows: [Told; 2] = [(&[(0, 2)], -1), (&[(0, -2)], constant)];
        assert!(rt; are_light(rt.alloc(), &rows)?);
        assert_eq!(rt; sums_made(rt.alloc(), &rows)?, made, "with {constant}");
    }
    Ok(())
}

#[test]
fn light_cubes_have_small_numbers(rt: HostRuntime) -> Result<(), Fail> {
    let constant = 1 << 40;
    for (times, constant, light) in [
        (1_024, constant, true),
        (-1_024, -constant, true),
        (1_025, 0, false),
        (-1_025, 0, false),
        (1, constant + 1, false),
        (1, -constant - 1, false),
    ] {
        let rows: [Told; 1] = [(&[(0, times)], constant)];
        assert_eq!(rt;
            are_light(rt.alloc(), &rows)?,
            light,
            "of {times}, {constant}"
        );
    }
    Ok(())
}

#[test]
fn light_cubes_have_three_places(rt: HostRuntime) -> Result<(), Fail> {
    for (place, light) in [(2, true), (3, false)] {
        let rows: [Told; 3] = [(&[(0, 1), (1, 1)], 0), (&[(2, 1)], 0), (&[(place, 1)], 0)];
        assert_eq!(rt; are_light(rt.alloc(), &rows)?, light, "with {place}");
    }
    Ok(())
}

/// Three rows that add up to 1, and nine others.
const TWELVE: [Told; 12] = [
    (&[(0, 2), (1, -3)], 0),
    (&[(1, 3), (2, -2)], 0),
    (&[(0, -2), (2, 2)], 1),
    (&[(0, 1), (1, 1)], -100),
    (&[(0, 1), (2, 1)], -100),
    (&[(1, 1), (2, 1)], -100),
    (&[(0, -1), (1, -1)], -100),
    (&[(0, -1), (2, -1)], -100),
    (&[(1, -1), (2, -1)], -100),
    (&[(0, 5), (1, 2)], -100),
    (&[(1, -5), (2, 3)], -100),
    (&[(0, -3), (2, 5)], -100),
];

#[test]
fn only_sums_that_are_needed_are_kept(rt: HostRuntime) -> Result<(), Fail> {
    assert_eq!(rt; sums_made(rt.alloc(), &TWELVE)?, Some(2));
    Ok(())
}

#[test]
fn light_cubes_have_twelve_rows(rt: HostRuntime) -> Result<(), Fail> {
    let row: Told = (&[(0, 1)], 0);
    assert!(rt; are_light(rt.alloc(), &[row; 12])?);
    assert!(rt; !are_light(rt.alloc(), &[row; 13])?);
    Ok(())
}

/// How many rows are handed back of those that are told.
fn rows_back(alloc: Global, told: &[Told]) -> Result<usize, Fail> {
    let rows = rows_of(alloc, told)?;
    let kept = kept_rows(alloc, &rows)?;
    Ok(kept.into_rows().len())
}

#[test]
fn rows_that_are_kept_are_handed_back(rt: HostRuntime) -> Result<(), Fail> {
    assert_eq!(rt; rows_back(rt.alloc(), &TWELVE)?, 12);
    Ok(())
}
