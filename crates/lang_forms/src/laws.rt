//! What follows from the definitions alone.

ghost use Rattle.std.specs.Prelude.{◌≡◌, List, [], None};
ghost use Rattle.lang_tree.specs.declared.tree.Decl.{Decl};
ghost use Rattle.lang_tree.specs.declared.tree.MethodTree.{MethodTree};
ghost use Rattle.lang_base.specs.declared.source_fault.SourceFault.{SourceFault};
ghost use Rattle.lang_forms.specs.declared.scope.Entry.{Entry};
ghost use Rattle.lang_forms.specs.Forms.{HasOrderedScope};
ghost use Rattle.lang_forms.specs.Making.{HasSmallScope};
ghost use Rattle.lang_base.specs.SourceFaults.{FindsLeast, least};
ghost use Rattle.lang_forms.specs.KeptMeaning.{FormsKeepMeaning, FormulasKeepMeaning};

/// Flattened forms and formulas keep the plain meaning of expressions that break no rule: a form
/// has the value that ordinary arithmetic gives the expression, and a formula the truth that
/// ordinary logic gives it.
pub fn forms_keep_meaning()
    ensures ints { (scope : List Entry) → FormsKeepMeaning scope }
    ensures bools { (scope : List Entry) → FormulasKeepMeaning scope }
{}

/// The least of some faults is one of them that none comes before, and there is none only where
/// there are no faults.
pub fn least_is_least()
    ensures one { (among : List SourceFault) → FindsLeast among }
    ensures none { (among : List SourceFault) → least among ≡ None → among ≡ [] }
{}

/// With no more fields than a monitor has, and no more inputs than a method has, the places of
/// fields, inputs and locals rise strictly in their scope.
pub fn scope_is_ordered()
    ensures { (declared : List Decl) (method : MethodTree) → HasOrderedScope declared method }
{}

/// The numbers of a method's scope are small enough for the forms that are made in it.
pub fn scope_numbers_are_small()
    ensures { (declared : List Decl) (method : MethodTree) → HasSmallScope declared method }
{}
