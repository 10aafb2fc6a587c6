//! Rules that a declaration keeps or breaks by itself.

ghost use Rattle.std.specs.Prelude.{◌≡◌};
ghost use Rattle.std.specs.List.{flat_map};
ghost use Rattle.lang_base.specs.SourceFaults.{least};

use lang_base::{SourceFault, earlier_of};
use lang_tree::Decl;

/// Such a rule.
pub(crate) trait DeclRule {
    ghost use Rattle.std.specs.Prelude.{List};
    ghost use Rattle.lang_base.specs.declared.source_fault.SourceFault.{SourceFault};
    ghost use Rattle.lang_tree.specs.declared.tree.Decl.{Decl};

    ghost faults: { Decl → List SourceFault };

    /// The first fault of a declaration.
    fn fault_of(decl: &Decl) -> Option<SourceFault>
        ensures { result ≡ least (faults decl.now) };
}

/// The first fault of these declarations by the rule.
pub(crate) fn first_fault<R: DeclRule>(decls: &[Decl]) -> Option<SourceFault>
    ensures { result ≡ least (flat_map R.faults decls.now) }
{
    let mut fault = None;
    for decl in decls {
        fault = earlier_of(fault, R::fault_of(decl));
    }
    fault
}
