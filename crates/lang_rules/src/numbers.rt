//! Numbers of declarations.

ghost use Rattle.std.specs.Prelude.{◌≡◌};
ghost use Rattle.lang_base.specs.SourceFaults.{least};
ghost use Rattle.lang_rules.specs.Rules.{faults_in_literals, literal_faults};

use crate::declarations::{DeclRule, first_fault};
use lang_base::{SourceFault, earlier_of};
use lang_forms::large_number;
use lang_tree::Decl;

/// The first of the written numbers of declarations that is too large.
pub(crate) fn large_literal(decls: &[Decl]) -> Option<SourceFault>
    ensures { result ≡ least (faults_in_literals decls.now) }
{
    first_fault::<SmallNumbers>(decls)
}

/// No written number of a declaration is too large.
struct SmallNumbers;

impl DeclRule for SmallNumbers {
    ghost faults = { literal_faults };

    fn fault_of(decl: &Decl) -> Option<SourceFault> {
        match decl {
            Decl::Const { value, .. } => large_number(value.at, value.digits),
            Decl::Param { value, limit, .. } => earlier_of(
                large_number(value.at, value.digits),
                large_number(limit.bound.at, limit.bound.digits),
            ),
            Decl::Int { value, .. } => large_number(value.at, value.digits),
            Decl::Copied { .. } => None,
            Decl::Flag { .. } => None,
        }
    }
}
