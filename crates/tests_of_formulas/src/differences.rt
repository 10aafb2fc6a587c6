//! Which rows are difference rows, and which forms are the same.

use super::shapes::form;
use logic_linear::{Lin, Term, is_difference};
use std::alloc::{AllocError, Global};
use std::test::Fail;

/// Whether the form of these terms is one of a difference row.
fn is_found(alloc: Global, terms: &[(u32, i128)]) -> Result<bool, Fail> {
    let form = form(alloc, terms, 5)?;
    Ok(is_difference(&form))
}

/// Whether a form of three variables is found.
fn is_three_found(alloc: Global) -> Result<bool, AllocError> {
    let terms = Vec::from_array(
        alloc,
        [
            Term { place: 1, times: 1 },
            Term {
                place: 2,
                times: -1,
            },
            Term { place: 3, times: 1 },
        ],
    )?;
    Ok(is_difference(&Lin::of(terms, 0)))
}

#[test]
fn rows_of_one_variable_or_a_difference_are_found(rt: HostRuntime) -> Result<(), Fail> {
    for (terms, found) in [
        ([].as_slice(), true),
        (&[(0, 1)], true),
        (&[(0, -1)], true),
        (&[(0, 2)], false),
        (&[(0, -2)], false),
        (&[(1, 1), (4, -1)], true),
        (&[(1, -1), (4, 1)], true),
        (&[(1, 1), (4, 1)], false),
        (&[(1, -1), (4, -1)], false),
        (&[(1, 2), (4, -1)], false),
        (&[(1, 1), (4, -2)], false),
    ] {
        assert_eq!(rt; is_found(rt.alloc(), terms)?, found, "of {terms:?}");
    }
    assert!(rt; !is_three_found(rt.alloc())?);
    Ok(())
}

/// Whether the form of these terms, and 5, is that of the others, and this constant.
fn is_same(
    alloc: Global,
    one: &[(u32, i128)],
    other: &[(u32, i128)],
    constant: i128,
) -> Result<bool, Fail> {
    let form_of_one = form(alloc, one, 5)?;
    let form_of_other = form(alloc, other, constant)?;
    Ok(form_of_one.is_same(&form_of_other))
}

#[test]
fn forms_of_the_same_numbers_are_the_same(rt: HostRuntime) -> Result<(), Fail> {
    let terms = [(1, 1), (4, -1)];
    assert!(rt; is_same(rt.alloc(), &terms, &terms, 5)?);
    assert!(rt; !is_same(rt.alloc(), &terms, &terms, 4)?);
    assert!(rt; !is_same(rt.alloc(), &terms, &[(1, 1), (4, -2)], 5)?);
    assert!(rt; !is_same(rt.alloc(), &terms, &[(1, 1)], 5)?);
    Ok(())
}
