//! Closings by the literals that say something new.

ghost use Rattle.std.specs.Prelude.{◌≡◌, ◌-◌, ◌≤◌, [], drop, IfOk, IfSome, length, map};
ghost use Rattle.std.specs.List.{list_any};
ghost use Rattle.logic_cert.specs.declared.cert.Cert.{out-Cert};
ghost use Rattle.logic_linear.specs.Measures.{MOST_NODES};
ghost use Rattle.logic_solve.specs.inner.Facts.{is_flag, moved, moved_sum, AreFacts, AreFactsOf};
ghost use Rattle.logic_solve.specs.inner.Facts.{AreMore, IsCutBack, IsMarked, IsNoted, IsMoved};
ghost use Rattle.logic_solve.specs.inner.Facts.{IsMovedClash};
ghost use Rattle.logic_solve.specs.inner.Literals.{IsClosing};

use super::closing::closing_over;
use base_list::Seq;
use logic_cert::{Cert, Combine, Literal};
use std::alloc::{AllocError, Global};

/// No more than so many literals are closed as they stand.
const FEW_LITERALS: usize = 1_024;

/// Literals with more than one fact to so many of them are closed as they stand.
const LITERALS_TO_A_FACT: usize = 4;

/// A flag is looked for among so many of the last facts.
const LOOKED_BACK: usize = 4;

/// Literals that say together what those say that were looked at, each with its number among them.
#[derive(Drop)]
pub(crate) struct Facts {
    literals: Vec<Literal>,
    numbers: Vec<u32>,
    /// So many literals were looked at, the first ones.
    looked: usize,
}

/// How many facts there were, of how many literals.
#[derive(Clone, Copy)]
pub(crate) struct Mark {
    facts: usize,
    looked: usize,
}

impl Facts {
    /// No facts.
    pub(crate) fn new(alloc: Global) -> Facts
        ensures literals { result.literals.items ≡ [] }
        ensures numbers { result.numbers.items ≡ [] }
        ensures looked { result.looked ≡ 0 }
    {
        Facts {
            literals: Vec::new(alloc),
            numbers: Vec::new(alloc),
            looked: 0,
        }
    }

    /// How many there are now.
    pub(crate) fn mark(&self) -> Mark
        ensures { IsMarked self.now result }
    {
        Mark {
            facts: self.literals.len(),
            looked: self.looked,
        }
    }

    /// Leaves as many as there were at the mark.
    pub(crate) fn cut_back(&mut self, mark: Mark)
        ensures { IsCutBack mark self.old self.new }
    {
        self.literals.truncate(mark.facts);
        self.numbers.truncate(mark.facts);
        self.looked = mark.looked;
    }
}

/// Whether the literal is the flag at the place with this truth.
fn is_flag(place: u32, is: bool, literal: &Literal) -> bool
    ensures { result ≡ is_flag place is literal.now }
{
    match literal {
        Literal::Row(_) => false,
        Literal::Flag {
            place: other,
            is: other_is,
        } => *other == place && *other_is == is,
    }
}

/// Whether some literal is the flag at the place with this truth.
fn has_flag(place: u32, is: bool, literals: &[Literal]) -> bool
    ensures { result ≡ list_any (is_flag place is) literals.now }
{
    literals.iter().any(|literal| is_flag(place, is, literal))
}

/// Whether one of the last facts is the flag at the place with this truth.
fn is_noted(place: u32, is: bool, facts: &[Literal]) -> bool
    ensures { result ≡ list_any (is_flag place is)
        (drop (length facts.now - LOOKED_BACK) facts.now) }
{
    let before = facts.len().saturating_sub(LOOKED_BACK);
    has_flag(place, is, &facts[before..])
}

/// Notes the literal under its number, unless it is a flag that one of the last facts says.
fn note(number: u32, literal: &Literal, facts: &mut Facts) -> Result<(), AllocError>
    ensures { IfOk result (λ done. IsNoted number literal.now
        facts.old.literals.items facts.old.numbers.items
        facts.new.literals.items facts.new.numbers.items) }
{
    match literal {
        Literal::Row(form) => {
            facts.literals.push(Literal::Row(form.clone()?))?;
            facts.numbers.push(number)?;
            Ok(())
        }
        Literal::Flag { place, is } => {
            if is_noted(*place, *is, facts.literals.as_slice()) {
                return Ok(());
            }
            facts.literals.push(Literal::Flag {
                place: *place,
                is: *is,
            })?;
            facts.numbers.push(number)?;
            Ok(())
        }
    }
}

/// Notes the literals that were not looked at.
fn catch_up(literals: &[Literal], facts: &mut Facts) -> Result<(), AllocError>
    requires size { length literals.now ≤ MOST_NODES }
    requires facts { AreFactsOf literals.now facts.now }
    ensures all { IfOk result (λ done. AreFacts literals.now literals.now
        facts.new.literals.items facts.new.numbers.items) }
    ensures facts { IfOk result (λ done. AreFactsOf literals.now facts.new) }
    ensures more { IfOk result (λ done. AreMore facts.old facts.new) }
{
    for i in facts.looked..literals.len() {
        note(i as u32, &literals[i], facts)?;
    }
    facts.looked = literals.len();
    Ok(())
}

/// The number among so many literals of what has this number over the facts, unless it is too
/// large.
fn moved(numbers: &[u32], count: u32, number: u32) -> Option<u32>
    requires { length numbers.now ≤ MOST_NODES }
    ensures { IfSome result (λ at. at ≡ moved numbers.now count number) }
{
    match numbers.get(number as usize) {
        Some(at) => Some(*at),
        None => (number - numbers.len() as u32).checked_add(count),
    }
}

/// The sum with its numbers among so many literals.
fn moved_sum(numbers: &[u32], count: u32, sum: Combine) -> Option<Combine>
    requires { length numbers.now ≤ MOST_NODES }
    ensures { IfSome result (λ made. made ≡ moved_sum numbers.now count sum) }
{
    Some(Combine {
        left: moved(numbers, count, sum.left)?,
        left_times: sum.left_times,
        right: moved(numbers, count, sum.right)?,
        right_times: sum.right_times,
    })
}

/// The sums with their numbers among so many literals.
fn moved_chain(
    alloc: Global,
    numbers: &[u32],
    count: u32,
    chain: &[Combine],
) -> Result<Option<Vec<Combine>>, AllocError>
    requires { length numbers.now ≤ MOST_NODES }
    ensures { IfOk result (λ found. IfSome found (λ sums.
        sums.items ≡ map (moved_sum numbers.now count) chain.now)) }
{
    let mut sums = Vec::new(alloc);
    for sum in chain {
        let Some(made) = moved_sum(numbers, count, *sum) else {
            return Ok(None);
        };
        sums.push(made)?;
    }
    Ok(Some(sums))
}

/// The clash with its numbers among so many literals.
fn moved_clash(numbers: &[u32], count: u32, left: u32, right: u32) -> Option<Cert>
    requires { length numbers.now ≤ MOST_NODES }
    ensures { IfSome result (λ made.
        IsMovedClash numbers.now count left right (out-Cert made)) }
{
    Some(Cert::Clash {
        left: moved(numbers, count, left)?,
        right: moved(numbers, count, right)?,
    })
}

/// The certificate with its numbers among so many literals.
fn moved_cert(
    alloc: Global,
    numbers: &[u32],
    count: u32,
    cert: &Cert,
) -> Result<Option<Cert>, AllocError>
    requires { length numbers.now ≤ MOST_NODES }
    ensures { IfOk result (λ found. IfSome found (λ made.
        IsMoved numbers.now count (out-Cert cert.now) (out-Cert made))) }
{
    match cert {
        Cert::Split(_) => Ok(None),
        Cert::Clash { left, right } => Ok(moved_clash(numbers, count, *left, *right)),
        Cert::Chain(chain) => match moved_chain(alloc, numbers, count, chain.items())? {
            None => Ok(None),
            Some(sums) => Ok(Some(Cert::Chain(Seq::of(sums)))),
        },
        Cert::Cases { .. } => Ok(None),
    }
}

/// What closes the literals, found by their facts.
fn closing_by(
    alloc: Global,
    literals: &[Literal],
    facts: &Facts,
) -> Result<Option<Cert>, AllocError>
    requires size { length literals.now ≤ MOST_NODES }
    requires facts { AreFacts literals.now literals.now
        facts.now.literals.items facts.now.numbers.items }
    ensures { IfOk result (IsClosing literals.now) }
{
    let Some(cert) = closing_over(alloc, facts.literals.as_slice())? else {
        return Ok(None);
    };
    let count = literals.len() as u32;
    if let Some(made) = moved_cert(alloc, facts.numbers.as_slice(), count, &cert)? {
        return Ok(Some(made));
    }
    Ok(closing_over(alloc, literals)?)
}

/// A clash or a chain that refutes the literals, where one is found; of many it looks only at those
/// that say something new. Literals whose rows are difference rows are refuted, or have a solution.
pub(crate) fn closing(
    alloc: Global,
    literals: &[Literal],
    facts: &mut Facts,
) -> Result<Option<Cert>, AllocError>
    requires size { length literals.now ≤ MOST_NODES }
    requires facts { AreFactsOf literals.now facts.now }
    ensures closing { IfOk result (IsClosing literals.now) }
    ensures facts { IfOk result (λ found. AreFactsOf literals.now facts.new) }
    ensures more { IfOk result (λ found. AreMore facts.old facts.new) }
{
    let count = literals.len();
    if count <= FEW_LITERALS {
        return Ok(closing_over(alloc, literals)?);
    }
    catch_up(literals, facts)?;
    if facts.literals.len() > count / LITERALS_TO_A_FACT {
        return Ok(closing_over(alloc, literals)?);
    }
    Ok(closing_by(alloc, literals, facts)?)
}
