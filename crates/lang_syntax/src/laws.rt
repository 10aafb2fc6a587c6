//! What follows from the definitions alone.

ghost use Rattle.std.specs.Prelude.{◌≡◌, ℕ, All, List};
ghost use Rattle.lang_tokens.specs.declared.token.Token.{Token};
ghost use Rattle.lang_tree.specs.declared.tree.ClientsTree.{ClientsTree};
ghost use Rattle.lang_tree.specs.declared.tree.MonitorTree.{MonitorTree};
ghost use Rattle.lang_tree.specs.Names.{names_in, names_in_clients};
ghost use Rattle.lang_tokens.specs.Spelling.{IsIdentifier, Spells};
ghost use Rattle.lang_syntax.specs.Grammar.{Derives};
ghost use Rattle.lang_syntax.specs.ClientGrammar.{DerivesClients};
ghost use Rattle.lang_syntax.specs.PrintedAgain.{ArePrintedAgain, IsPrintedAgain};

/// The grammar derives one tree at most from a file's tokens.
pub fn derives_one_tree()
    ensures monitors { (bytes : List ℕ) (tokens : List Token) (a b : MonitorTree)
        → Derives bytes tokens a → Derives bytes tokens b → a ≡ b }
    ensures clients { (bytes : List ℕ) (tokens : List Token) (a b : ClientsTree)
        → DerivesClients bytes tokens a → DerivesClients bytes tokens b → a ≡ b }
{}

/// What is printed of a derived tree spells tokens that derive the same tree, but for offsets.
pub fn printed_tree_derives()
    ensures monitors { (bytes : List ℕ) (tokens : List Token) (tree : MonitorTree)
        → Spells bytes tokens → Derives bytes tokens tree → IsPrintedAgain tree }
    ensures clients { (bytes : List ℕ) (tokens : List Token) (tree : ClientsTree)
        → Spells bytes tokens → DerivesClients bytes tokens tree → ArePrintedAgain tree }
{}

/// Every name in a derived tree is an identifier that is no keyword: those that the file declares,
/// the targets of its assignments, and those in its expressions and calls.
pub fn names_are_identifiers()
    ensures monitors { (bytes : List ℕ) (tokens : List Token) (tree : MonitorTree)
        → Spells bytes tokens → Derives bytes tokens tree → All IsIdentifier (names_in tree) }
    ensures clients { (bytes : List ℕ) (tokens : List Token) (tree : ClientsTree)
        → Spells bytes tokens → DerivesClients bytes tokens tree
        → All IsIdentifier (names_in_clients tree) }
{}
