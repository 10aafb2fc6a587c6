//! Whole numbers at which formulas of general rows are true, and where none are found.

use super::shapes::{BOUND, Shape, all_of};
use base_list::Seq;
use logic_linear::{Formula, MOST_NODES, nodes};
use logic_solve::{formula_truth, solution};
use std::alloc::{AllocError, Global};
use std::test::Fail;

/// Whether a solution is found at which the formula is true.
fn is_solved(alloc: Global, formula: &Formula) -> Result<bool, AllocError> {
    if nodes(formula) > MOST_NODES {
        return Ok(false);
    }
    match solution(alloc, formula)? {
        None => Ok(false),
        Some(at) => Ok(formula_truth(&at, formula) == Some(true)),
    }
}

/// The same of all of these parts.
fn are_solved(alloc: Global, parts: &[Shape]) -> Result<bool, Fail> {
    let formula = all_of(alloc, parts)?;
    Ok(is_solved(alloc, &formula)?)
}

/// Each variable has a place: x 0 and y 1.
const SOLVED: [&[Shape]; 7] = [
    // x + y >= 3, x <= 1, y <= 2
    &[
        Shape::Row(&[(0, -1), (1, -1)], 3),
        Shape::Row(&[(0, 1)], -1),
        Shape::Row(&[(1, 1)], -2),
    ],
    // 2 * x == -6
    &[Shape::Row(&[(0, 2)], 6), Shape::Row(&[(0, -2)], -6)],
    // 3 * x + 5 * y == 1
    &[
        Shape::Row(&[(0, 3), (1, 5)], -1),
        Shape::Row(&[(0, -3), (1, -5)], 1),
    ],
    // 7 * x - 11 * y == 4, 0 <= x <= 10, 0 <= y
    &[
        Shape::Row(&[(0, 7), (1, -11)], -4),
        Shape::Row(&[(0, -7), (1, 11)], 4),
        Shape::Row(&[(0, 1)], -10),
        Shape::Row(&[(0, -1)], 0),
        Shape::Row(&[(1, -1)], 0),
    ],
    // 2 * x <= y, 3 * y <= 4 * x - 1
    &[
        Shape::Row(&[(0, 2), (1, -1)], 0),
        Shape::Row(&[(0, -4), (1, 3)], 1),
    ],
    // a flag, and x + y <= -1000000
    &[
        Shape::Flag(0, true),
        Shape::Flag(1, false),
        Shape::Row(&[(0, 1), (1, 1)], 1_000_000),
    ],
    // (2^95 - 1) * x >= 2^95 - 1
    &[Shape::Row(&[(0, 1 - BOUND)], BOUND - 1)],
];

#[test]
fn whole_numbers_are_found(rt: HostRuntime) -> Result<(), Fail> {
    for parts in SOLVED {
        assert!(rt; are_solved(rt.alloc(), parts)?, "of {parts:?}");
    }
    Ok(())
}

const UNSOLVED: [&[Shape]; 5] = [
    // 2 * x + 2 * y == 5
    &[
        Shape::Row(&[(0, 2), (1, 2)], -5),
        Shape::Row(&[(0, -2), (1, -2)], 5),
    ],
    // 4 * x + 2 * y == 7
    &[
        Shape::Row(&[(0, 4), (1, 2)], -7),
        Shape::Row(&[(0, -4), (1, -2)], 7),
    ],
    // 2 * x == 5
    &[Shape::Row(&[(0, 2)], -5), Shape::Row(&[(0, -2)], 5)],
    // x + y >= 4, x <= 1, y <= 2
    &[
        Shape::Row(&[(0, -1), (1, -1)], 4),
        Shape::Row(&[(0, 1)], -1),
        Shape::Row(&[(1, 1)], -2),
    ],
    // the factors that take out x are beyond 128 bits
    &[
        Shape::Row(&[(0, BOUND - 1), (1, 2 - BOUND)], -1),
        Shape::Row(&[(0, 1 - BOUND), (1, BOUND - 2)], 1),
    ],
];

#[test]
fn no_numbers_are_found(rt: HostRuntime) -> Result<(), Fail> {
    for parts in UNSOLVED {
        assert!(rt; !are_solved(rt.alloc(), parts)?, "of {parts:?}");
    }
    Ok(())
}

/// Whether a solution is found of one of these, each all of its parts.
fn is_one_solved(alloc: Global, cubes: &[&[Shape]]) -> Result<bool, Fail> {
    let mut parts = Vec::new(alloc);
    for cube in cubes {
        parts.push(all_of(alloc, cube)?)?;
    }
    let formula = Formula::Any(Seq::of(parts));
    Ok(is_solved(alloc, &formula)?)
}

#[test]
fn a_later_cube_is_solved(rt: HostRuntime) -> Result<(), Fail> {
    assert!(rt; is_one_solved(rt.alloc(), &[UNSOLVED[0], UNSOLVED[1], SOLVED[2]])?);
    assert!(rt; !is_one_solved(rt.alloc(), &[UNSOLVED[0], UNSOLVED[1]])?);
    Ok(())
}
