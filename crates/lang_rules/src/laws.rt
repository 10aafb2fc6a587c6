//! What follows from the definitions alone.

ghost use Rattle.lang_tree.specs.declared.tree.MonitorTree.{MonitorTree};
ghost use Rattle.lang_rules.specs.Judgements.{ListsBrokenRules};

/// The faults of a tree are exactly the rules that it breaks, each at the place where it is broken.
pub fn faults_are_broken_rules()
    ensures { (tree : MonitorTree) → ListsBrokenRules tree }
{}
