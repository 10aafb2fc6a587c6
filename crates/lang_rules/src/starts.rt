//! The rules of parameters, and of starts that are copied.

ghost use Rattle.std.specs.Prelude.{◌≡◌, [], ◌∷◌, if◌then◌else◌};
ghost use Rattle.std.specs.List.{list_any};
ghost use Rattle.lang_base.specs.declared.source_fault.Refusal.TheVariants.{Unknown, WrongStart};
ghost use Rattle.lang_base.specs.SourceFaults.{fault_at, least};
ghost use Rattle.lang_forms.specs.Plain.{compared};
ghost use Rattle.lang_rules.specs.Rules.{comparison_of, faults_in_sources, faults_in_starts};
ghost use Rattle.lang_rules.specs.Rules.{is_source, is_wrong_start, source_faults, start_faults};
ghost use Rattle.lang_rules.specs.Rules.{subject_faults};

use crate::declarations::{DeclRule, first_fault};
use lang_base::{Name, Refusal, SourceFault, earlier_of, limits};
use lang_forms::number_of;
use lang_tree::{Decl, LimitSign, LimitTree, Lit};

/// The first rule that a parameter, or a start that is copied, breaks.
pub(crate) fn fault_in_starts(decls: &[Decl]) -> Option<SourceFault>
    ensures { result ≡ least (faults_in_starts decls.now) }
{
    earlier_of(
        earlier_of(first_fault::<OwnSubjects>(decls), unknown_source(decls)),
        first_fault::<MetStarts>(decls),
    )
}

/// The condition of a parameter is on its own name.
struct OwnSubjects;

impl DeclRule for OwnSubjects {
    ghost faults = { subject_faults };

    fn fault_of(decl: &Decl) -> Option<SourceFault> {
        match decl {
            Decl::Const { .. } => None,
            Decl::Param { name, limit, .. } => unknown_unless(
                limit.subject.name.bytes() == name.bytes(),
                limit.subject.at,
            ),
            Decl::Int { .. } => None,
            Decl::Copied { .. } => None,
            Decl::Flag { .. } => None,
        }
    }
}

/// The first start that copies what is no constant or parameter before it.
fn unknown_source(decls: &[Decl]) -> Option<SourceFault>
    ensures { result ≡ least (faults_in_sources [] decls.now) }
{
    let mut fault = None;
    for (i, decl) in decls.iter().enumerate() {
        fault = earlier_of(fault, source_fault(&decls[..i], decl));
    }
    fault
}

fn source_fault(earlier: &[Decl], decl: &Decl) -> Option<SourceFault>
    ensures { result ≡ least (source_faults earlier.now decl.now) }
{
    match decl {
        Decl::Const { .. } => None,
        Decl::Param { .. } => None,
        Decl::Int { .. } => None,
        Decl::Copied { source, .. } => {
            unknown_unless(has_source(earlier, &source.name), source.at)
        }
        Decl::Flag { .. } => None,
    }
}

/// One of these is a constant or a parameter of this name.
fn has_source(decls: &[Decl], name: &Name) -> bool
    ensures { result ≡ list_any (is_source name.now) decls.now }
{
    decls.iter().any(|decl| is_source(name, decl))
}

/// It declares a constant or a parameter of this name.
pub fn is_source(name: &Name, decl: &Decl) -> bool
    ensures { result ≡ is_source name.now decl.now }
{
    match decl {
        Decl::Const { name: own, .. } => own.bytes() == name.bytes(),
        Decl::Param { name: own, .. } => own.bytes() == name.bytes(),
        Decl::Int { .. } => false,
        Decl::Copied { .. } => false,
        Decl::Flag { .. } => false,
    }
}

/// The name that stands here is unknown, unless it is known.
fn unknown_unless(known: bool, at: u32) -> Option<SourceFault>
    ensures { result ≡ least (if known then [] else fault_at Unknown at ∷ []) }
{
    if known {
        None
    } else {
        Some(SourceFault {
            at,
            what: Refusal::Unknown,
        })
    }
}

/// The own number of a parameter meets its condition.
struct MetStarts;

impl DeclRule for MetStarts {
    ghost faults = { start_faults };

    fn fault_of(decl: &Decl) -> Option<SourceFault> {
        match decl {
            Decl::Const { .. } => None,
            Decl::Param { value, limit, .. } => {
                wrong_start_at(is_wrong_start(value, limit), value.at)
            }
            Decl::Int { .. } => None,
            Decl::Copied { .. } => None,
            Decl::Flag { .. } => None,
        }
    }
}

/// The number that stands here doesn't meet its condition.
fn wrong_start_at(wrong: bool, at: u32) -> Option<SourceFault>
    ensures { result ≡ least (if wrong then fault_at WrongStart at ∷ [] else []) }
{
    if wrong {
        Some(SourceFault {
            at,
            what: Refusal::WrongStart,
        })
    } else {
        None
    }
}

/// Neither number is too large, and the own one doesn't meet the condition.
fn is_wrong_start(value: &Lit, limit: &LimitTree) -> bool
    ensures { result ≡ is_wrong_start value.now limit.now }
{
    if value.digits > limits::GREATEST_NUMBER || limit.bound.digits > limits::GREATEST_NUMBER {
        return false;
    }
    !compares(limit.sign, number_of(value), number_of(&limit.bound))
}

/// The numbers compare as the sign says.
fn compares(sign: LimitSign, number: i64, bound: i64) -> bool
    ensures { result ≡ compared (comparison_of sign) number bound }
{
    match sign {
        LimitSign::Equal => number == bound,
        LimitSign::Less => number < bound,
        LimitSign::AtMost => number <= bound,
        LimitSign::More => bound < number,
        LimitSign::AtLeast => bound <= number,
    }
}
