//! What follows from the definitions alone.

ghost use Rattle.lang_tree.specs.declared.tree.ClientsTree.{ClientsTree};
ghost use Rattle.lang_monitor.specs.MonitorParts.{MonitorParts};
ghost use Rattle.lang_script.specs.ScriptRules.{ListsBrokenRules};

/// The faults of a tree are exactly the rules that it breaks, each at the place where it is broken.
pub fn faults_are_broken_rules()
    ensures { (monitor : MonitorParts) (tree : ClientsTree) → ListsBrokenRules monitor tree }
{}
