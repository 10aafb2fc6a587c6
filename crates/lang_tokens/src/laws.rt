//! What follows from the definitions alone.

ghost use Rattle.std.specs.Prelude.{◌≡◌, ℕ, List, All};
ghost use Rattle.lang_tokens.specs.declared.token.Token.{Token};
ghost use Rattle.lang_tokens.specs.Spelling.{Spells, StartsNoToken, IsToken};

/// Bytes spell one list of tokens at most, and none where they are stuck.
pub fn one_spelling()
    ensures one { (bytes : List ℕ) (a b : List Token)
        → Spells bytes a → Spells bytes b → a ≡ b }
    ensures stuck { (bytes : List ℕ) (at : ℕ) (spelled : List Token)
        → StartsNoToken bytes at → Spells bytes spelled → ⊥ }
{}

/// Each token stands within the bytes, a number's bytes are digits, and a name's are an identifier.
pub fn each_is_token()
    ensures { (bytes : List ℕ) (spelled : List Token)
        → Spells bytes spelled → All (IsToken bytes) spelled }
{}
