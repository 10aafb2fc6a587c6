//! What follows from the definitions alone, of the bytes of files and of what is chosen.

ghost use Rattle.std.specs.Prelude.{◌≡◌, ℕ, List};
ghost use Rattle.lang_tree.specs.declared.tree.MonitorTree.{MonitorTree};
ghost use Rattle.lang_monitor.specs.MonitorParts.{MonitorParts, IsMonitor};
ghost use Rattle.lang_monitor.specs.MonitorParts.{opened_with, start_of};
ghost use Rattle.lang_monitor.specs.Starts.{IsStart};
ghost use Rattle.machine_implicit.specs.declared.script.Client.{Client};
ghost use Rattle.expresso_answers.specs.MonitorFiles.{IsAccepted};
ghost use Rattle.expresso_answers.specs.ClientFiles.{AreAccepted};

use lang_syntax::derives_one_tree;
use lang_tokens::one_spelling;

/// Bytes are accepted as one tree at most, and as one monitor.
pub fn accepts_one_monitor()
    ensures trees { (bytes : List ℕ) (tree other : MonitorTree) (monitor also : MonitorParts)
        → IsAccepted bytes tree monitor → IsAccepted bytes other also → tree ≡ other }
    ensures monitors { (bytes : List ℕ) (tree other : MonitorTree) (monitor also : MonitorParts)
        → IsAccepted bytes tree monitor → IsAccepted bytes other also → monitor ≡ also }
{
    one_spelling();
    derives_one_tree();
}

/// Of one monitor's clients, bytes are accepted as one list at most.
pub fn accepts_one_client_list()
    ensures { (bytes : List ℕ) (monitor : MonitorParts) (clients others : List Client)
        → AreAccepted bytes monitor clients → AreAccepted bytes monitor others
        → clients ≡ others }
{
    one_spelling();
    derives_one_tree();
}

/// Its own start is one with which a monitor may be opened, and so it is opened as it stands: what
/// holds for every choice (`ForEveryChoice`) holds of the monitor itself.
pub fn own_start_is_a_choice()
    ensures may { (monitor : MonitorParts) → IsMonitor monitor
        → IsStart monitor.fields (start_of monitor) }
    ensures same { (monitor : MonitorParts) → opened_with monitor (start_of monitor) ≡ monitor }
{}
