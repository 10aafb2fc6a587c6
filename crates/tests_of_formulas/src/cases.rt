//! Certificates with cases: read from their texts, printed as they were read, and checked. What is
//! damaged is refused.

use super::shapes::{Shape, all_of, form};
use base_io::GrowingSink;
use base_list::{Boxed, Seq};
use logic_cert::{Cert, Combine, accepts, print_cert};
use logic_outline::{is_refuted, read_outline};
use std::alloc::{AllocError, Global};
use std::test::Fail;

/// `2x + 2y` is at most 5, and at least 5: true at fractions alone.
const HALVES: [Shape; 2] = [
    Shape::Row(&[(0, 2), (1, 2)], -5),
    Shape::Row(&[(0, -2), (1, -2)], 5),
];

/// A row that is true nowhere.
const NEVER: [Shape; 1] = [Shape::Row(&[], 1)];

/// Its certificate.
const CLOSES: &[u8] = b"chain 1 0 1 0 0";

/// Whether the text is that of a certificate that refutes all of these rows, and none where it is
/// no text of one.
fn checked(alloc: Global, rows: &[Shape], text: &[u8]) -> Result<Option<bool>, Fail> {
    let formula = all_of(alloc, rows)?;
    match read_outline(alloc, text)? {
        Some((outline, [])) => Ok(Some(is_refuted(alloc, &formula, &outline)?)),
        _ => Ok(None),
    }
}

#[test]
fn both_sides_refute_what_fractions_leave(rt: HostRuntime) -> Result<(), Fail> {
    let sides = b"cases 2 0 1 1 1 -2 below chain 1 2 2 1 1 above chain 1 2 2 0 1";
    assert_eq!(rt; checked(rt.alloc(), &HALVES, sides)?, Some(true));
    let first = b"cases 2 0 1 1 1 -2 below chain 1 2 2 1 1 above chain 1 2 2 1 1";
    assert_eq!(rt; checked(rt.alloc(), &HALVES, first)?, Some(false));
    let second = b"cases 2 0 1 1 1 -2 below chain 1 2 2 0 1 above chain 1 2 2 0 1";
    assert_eq!(rt; checked(rt.alloc(), &HALVES, second)?, Some(false));
    let other = b"cases 2 0 1 1 1 -3 below chain 1 2 2 1 1 above chain 1 2 2 0 1";
    assert_eq!(rt; checked(rt.alloc(), &HALVES, other)?, Some(false));
    Ok(())
}

#[test]
fn damaged_texts_are_read_as_none(rt: HostRuntime) -> Result<(), Fail> {
    let texts: [&[u8]; 12] = [
        b"cases 1 0 1 0 below chain 1 0 1 0 0",
        b"cases 1 0 1 0 below chain 1 0 1 0 0 above",
        b"cases 1 0 1 0 above chain 1 0 1 0 0 below chain 1 0 1 0 0",
        b"cases 1 0 1 0 chain 1 0 1 0 0 above chain 1 0 1 0 0",
        b"cases 1 0 1 0 below chain 1 0 1 0 0 chain 1 0 1 0 0",
        b"cases 1 0 1 0 below chain 1 0 1 0 0 above chain 1 0 1 0 0 above chain 1 0 1 0 0",
        b"cases 1 0 1 below chain 1 0 1 0 0 above chain 1 0 1 0 0",
        b"cases 2 1 1 0 1 0 below chain 1 0 1 0 0 above chain 1 0 1 0 0",
        b"cases 2 0 1 0 1 0 below chain 1 0 1 0 0 above chain 1 0 1 0 0",
        b"cases 1 0 0 0 below chain 1 0 1 0 0 above chain 1 0 1 0 0",
        b"cases 1 4294967296 1 0 below chain 1 0 1 0 0 above chain 1 0 1 0 0",
        b"cases 1 0 39614081257132168796771975168 0 below chain 1 0 1 0 0 above chain 1 0 1 0 0",
    ];
    for text in texts {
        assert_eq!(rt; checked(rt.alloc(), &NEVER, text)?, None);
    }
    Ok(())
}

/// What comes of the row that is true nowhere by cases of this form.
fn by_cases(alloc: Global, form: &[u8]) -> Result<Option<bool>, Fail> {
    let mut text = Vec::new(alloc);
    for piece in [b"cases ", form, b" below ", CLOSES, b" above ", CLOSES] {
        text.extend_from_slice(piece)?;
    }
    checked(alloc, &NEVER, &text)
}

#[test]
fn the_upper_row_stays_within_96_bits(rt: HostRuntime) -> Result<(), Fail> {
    let alloc = rt.alloc();
    assert_eq!(rt;
        by_cases(alloc, b"1 0 -39614081257132168796771975166 0")?,
        Some(true)
    );
    assert_eq!(rt;
        by_cases(alloc, b"0 -39614081257132168796771975166")?,
        Some(true)
    );
    assert_eq!(rt;
        by_cases(alloc, b"1 0 39614081257132168796771975167 0")?,
        Some(true)
    );
    assert_eq!(rt;
        by_cases(alloc, b"1 0 -39614081257132168796771975168 0")?,
        Some(false)
    );
    assert_eq!(rt;
        by_cases(alloc, b"0 -39614081257132168796771975168")?,
        Some(false)
    );
    Ok(())
}

/// What comes of the row that is true nowhere by so many cases in one another, in lower sides and
/// in upper ones.
fn by_nests(alloc: Global, levels: u32) -> Result<Option<bool>, Fail> {
    let mut text = Vec::new(alloc);
    for _ in 0..levels {
        text.extend_from_slice(b"cases 0 0 below cases 1 7 -2 3 below ")?;
        text.extend_from_slice(CLOSES)?;
        text.extend_from_slice(b" above ")?;
    }
    text.extend_from_slice(CLOSES)?;
    for _ in 0..levels {
        text.extend_from_slice(b" above ")?;
        text.extend_from_slice(CLOSES)?;
    }
    checked(alloc, &NEVER, &text)
}

#[test]
fn deep_nests_are_read_and_checked(rt: HostRuntime) -> Result<(), Fail> {
    assert_eq!(rt; by_nests(rt.alloc(), 1)?, Some(true));
    assert_eq!(rt; by_nests(rt.alloc(), 500)?, Some(true));
    Ok(())
}

/// A chain of one sum.
fn sum(alloc: Global, left: u32, left_times: i128, right: u32) -> Result<Cert, AllocError> {
    let combine = Combine {
        left,
        left_times,
        right,
        right_times: 1,
    };
    Ok(Cert::Chain(Seq::of(Vec::from_array(alloc, [combine])?)))
}

/// The cases by which what is true at fractions alone is refuted.
fn cases(alloc: Global) -> Result<Cert, Fail> {
    let form = form(alloc, &[(0, 1), (1, 1)], -2)?;
    let below = Boxed::new(alloc, sum(alloc, 2, 2, 1)?)?;
    let above = Boxed::new(alloc, sum(alloc, 2, 2, 0)?)?;
    Ok(Cert::Cases { form, below, above })
}

/// The text of a certificate.
fn printed(alloc: Global, cert: &Cert) -> Result<Vec<u8>, Fail> {
    let mut out = GrowingSink::new(alloc);
    match print_cert(cert, &mut out) {
        Ok(()) => Ok(out.into_bytes()),
        Err(_) => Err(Fail::from("want of memory")),
    }
}

#[test]
fn what_is_printed_is_read_and_accepted(rt: HostRuntime) -> Result<(), Fail> {
    let alloc = rt.alloc();
    let cert = cases(alloc)?;
    let formula = all_of(alloc, &HALVES)?;
    assert!(rt; accepts(alloc, &formula, &cert)?);
    assert_eq!(rt;
        checked(alloc, &HALVES, &printed(alloc, &cert)?)?,
        Some(true)
    );
    Ok(())
}
