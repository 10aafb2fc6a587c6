//! The rows of a cube: of those with the same terms only the tightest.

ghost use Rattle.std.specs.Prelude.{◌≡◌, ◌∷◌, ◌++◌, ◌+◌, ◌*◌, ◌%◌, ◌<◌, [], IfOk, OnErr};
ghost use Rattle.std.specs.Prelude.{if◌then◌else◌, length, nat_le, slice_get};
ghost use Rattle.std.specs.List.{find, list_any, AllByRecursion as Each};
ghost use Rattle.logic_linear.specs.Substitution.{times_at};
ghost use Rattle.logic_elim.specs.Rows.{is_as_tight, same_terms, says_nothing, with_row};
ghost use Rattle.logic_elim.specs.inner.Index.{bucket_of, is_same_at, is_tight_at};

use logic_cert::WideRow;
use std::alloc::{AllocError, Global};
use std::marker::Model;

/// A row and its number in the chain: the given rows come first, and then the made ones.
#[derive(Debug, Drop)]
pub struct Numbered {
    /// Its number.
    pub number: u32,
    /// The row itself.
    pub row: WideRow,
}

/// How many times the variable at the place counts in the row.
pub(crate) fn times_at(place: u32, row: &WideRow) -> i128
    ensures { result ≡ times_at place row.now.terms }
{
    for term in row.terms() {
        if term.place == place {
            return term.times;
        }
    }
    0
}

/// Whether the row has no variable and a constant that is not above 0, so that it holds everywhere.
pub(crate) fn says_nothing(row: &WideRow) -> bool
    ensures { result ≡ says_nothing row.now }
{
    match row.terms() {
        [] => row.constant() <= 0,
        _ => false,
    }
}

/// Whether the two rows have the same terms.
fn has_same_terms(row: &WideRow, other: &WideRow) -> bool
    ensures { result ≡ same_terms row.now.terms other.now.terms }
{
    row.terms() == other.terms()
}

/// Whether the first row has the second one's terms and implies it.
fn is_as_tight(kept: &Numbered, row: &WideRow) -> bool
    ensures { result ≡ is_as_tight row.now kept.now }
{
    has_same_terms(&kept.row, row) && row.constant() <= kept.row.constant()
}

/// Whether the row at the number has these terms.
fn is_same_at(rows: &[Numbered], number: usize, row: &WideRow) -> bool
    ensures { result ≡ is_same_at row.now (slice_get rows.now number) }
{
    match rows.get(number) {
        None => false,
        Some(kept) => has_same_terms(&kept.row, row),
    }
}

/// Whether the row at the number has these terms and implies the row.
fn is_tight_at(rows: &[Numbered], number: usize, row: &WideRow) -> bool
    ensures { result ≡ is_tight_at row.now (slice_get rows.now number) }
{
    match rows.get(number) {
        None => false,
        Some(kept) => is_as_tight(kept, row),
    }
}

/// The first of the numbers whose row has these terms.
fn find_same(rows: &[Numbered], numbers: &[usize], row: &WideRow) -> Option<usize>
    ensures { result ≡ find (λ n. is_same_at row.now (slice_get rows.now n)) numbers.now }
{
    numbers
        .iter()
        .copied()
        .find(|number| is_same_at(rows, *number, row))
}

/// Whether the row at one of the numbers has these terms and implies the row.
fn has_tight(rows: &[Numbered], numbers: &[usize], row: &WideRow) -> bool
    ensures { result ≡ list_any (λ n. is_tight_at row.now (slice_get rows.now n)) numbers.now }
{
    numbers.iter().any(|number| is_tight_at(rows, *number, row))
}

/// The bucket of two places among so many.
fn bucket_of_places(place: u32, other: u32, side: u32, count: usize) -> usize
    requires { 0 < count }
    ensures value { result ≡ (place + other * side) % count }
    ensures within { result < count }
{
    let cell = u64::from(place) + u64::from(other) * u64::from(side);
    (cell % count as u64) as usize
}

/// The bucket of the row's terms among so many.
fn bucket_of(row: &WideRow, side: u32, count: usize) -> usize
    requires { 0 < count }
    ensures value { result ≡ bucket_of side count row.now.terms }
    ensures within { result < count }
{
    match row.terms() {
        [one] => bucket_of_places(one.place, one.place, side, count),
        [one, two] => bucket_of_places(one.place, two.place, side, count),
        _ => 0,
    }
}

/// Empty buckets, as many as pairs of so many places, and at least one.
fn empty_buckets(alloc: Global, side: u32) -> Result<Vec<Vec<usize>>, AllocError>
    ensures some { IfOk result (λ buckets. 0 < length buckets.items) }
    ensures each { IfOk result (λ buckets. Each (λ bucket. bucket.items ≡ []) buckets.items) }
{
    let mut buckets = Vec::new(alloc);
    buckets.push(Vec::new(alloc))?;
    for _ in 1..u64::from(side) * u64::from(side) {
        buckets.push(Vec::new(alloc))?;
    }
    Ok(buckets)
}

/// Puts the row at the end and its number into the bucket, or changes nothing.
fn push_both(
    rows: &mut Vec<Numbered>,
    bucket: &mut Vec<usize>,
    new: Numbered,
) -> Result<(), AllocError>
    ensures rows { IfOk result (λ done. rows.new.items ≡ rows.old.items ++ new ∷ []) }
    ensures bucket { IfOk result (λ done.
        bucket.new.items ≡ bucket.old.items ++ length rows.old.items ∷ []) }
    ensures same_rows { OnErr result (rows.new.items ≡ rows.old.items) }
    ensures same_bucket { OnErr result (bucket.new.items ≡ bucket.old.items) }
{
    bucket.push(rows.len())?;
    if rows.push(new).is_err() {
        bucket.pop();
        return Err(AllocError);
    }
    Ok(())
}

/// The kept rows, found by their terms in one step where these are a difference of two places, or
/// of one: each row's number stands in the bucket of its places, which are told apart modulo a
/// number.
#[derive(Debug, Drop)]
pub struct Rows {
    rows: Vec<Numbered>,
    side: u32,
    buckets: Vec<Vec<usize>>,
}

impl Model for Rows {
    ghost use Rattle.std.specs.Prelude.{List};
    ghost use Rattle.logic_elim.specs.declared.rows.Numbered.{Numbered};
    ghost use Rattle.logic_elim.specs.inner.Index.{IsIndexed};

    ghost Value = { List Numbered };

    ghost view = { λ kept. kept.rows.items };

    ghost invariant = { λ kept. IsIndexed kept.side kept.rows.items kept.buckets.items };
}

impl Rows {
    /// No rows yet. Two places in one step, where they differ modulo this number.
    pub fn new(alloc: Global, side: u32) -> Result<Rows, AllocError>
        ensures { IfOk result (λ kept. kept ≡ []) }
    {
        let buckets = empty_buckets(alloc, side)?;
        Ok(Rows {
            rows: Vec::new(alloc),
            side,
            buckets,
        })
    }

    /// These rows.
    pub fn of(alloc: Global, side: u32, rows: Vec<Numbered>) -> Result<Rows, AllocError>
        ensures { IfOk result (λ kept. kept ≡ rows.items) }
    {
        let mut kept = Rows::new(alloc, side)?;
        for numbered in rows {
            kept.push(numbered)?;
        }
        Ok(kept)
    }

    /// The rows themselves.
    pub fn into_rows(self) -> Vec<Numbered>
        ensures { result.items ≡ self }
    {
        self.rows
    }

    /// The rows, to look at.
    pub fn rows(&self) -> &[Numbered]
        ensures { result.now ≡ self.now }
    {
        self.rows.as_slice()
    }

    /// How many they are.
    pub fn len(&self) -> usize
        ensures { result ≡ length self.now }
    {
        self.rows.len()
    }

    /// Whether one of the kept rows has the row's terms and implies it.
    pub fn is_known(&self, row: &WideRow) -> bool
        ensures { result ≡ list_any (is_as_tight row.now) self.now }
    {
        let at = bucket_of(row, self.side, self.buckets.len());
        has_tight(&self.rows, &self.buckets[at], row)
    }

    /// Keeps the row in place of the one with its terms, where there is one.
    pub fn put(&mut self, new: Numbered) -> Result<(), AllocError>
        ensures { IfOk result (λ done. self.new ≡ with_row self.old new) }
    {
        let at = bucket_of(&new.row, self.side, self.buckets.len());
        if let Some(number) = find_same(&self.rows, &self.buckets[at], &new.row) {
            self.rows[number] = new;
            return Ok(());
        }
        self.push(new)?;
        Ok(())
    }

    /// Puts the row at the end.
    fn push(&mut self, new: Numbered) -> Result<(), AllocError>
        ensures { IfOk result (λ done. self.new ≡ self.old ++ new ∷ []) }
    {
        let at = bucket_of(&new.row, self.side, self.buckets.len());
        push_both(&mut self.rows, &mut self.buckets[at], new)?;
        Ok(())
    }
}

/// The rows of a cube are looked through one by one where they are at most so many for each place.
const FEW_FOR_A_PLACE: usize = 4;

/// The number modulo which places are told apart, or 1 where at most so few rows are kept that
/// looking through them takes less than a table.
pub fn side_for(side: u32, most: usize) -> u32
    ensures { result ≡ (if nat_le most (4 * side) then 1 else side) }
{
    if most <= FEW_FOR_A_PLACE * side as usize {
        1
    } else {
        side
    }
}
