//! What follows from the definitions alone.

ghost use Rattle.emit_names.specs.Laws.{InputsStayApart, MembersStayApart, NamesStayApart};
ghost use Rattle.emit_names.specs.Laws.{InputsAreNoKeywords, MembersAreNoKeywords};
ghost use Rattle.emit_names.specs.Laws.{TriesAreNoKeywords, TriesStandFree, TriesStayApart};
ghost use Rattle.emit_names.specs.Laws.{TypesAreNoKeywords};
ghost use Rattle.emit_names.specs.Laws.{TryWithsStandFree, WithsAreNoKeywords, WithsStandFree};
ghost use Rattle.emit_names.specs.Laws.{LastingAreNoKeywords, LastingStandFree};
ghost use Rattle.emit_names.specs.Laws.{LastingStayApart, LastingWithsStandFree, WithsStayApart};

/// Two names of one scope that Rust's text writes alike are one name: no two become one by another
/// case, by a `_` before an upper-case letter, or by the `_` after a word that has a meaning. So
/// for the constants, fields and methods of a monitor, and for the parameters and locals of a
/// method.
pub fn names_stay_apart()
    ensures names { NamesStayApart }
    ensures members { MembersStayApart }
    ensures inputs { InputsStayApart }
{}

/// No name is written as a keyword of Rust, or as a word that has another meaning where it stands.
pub fn names_are_no_keywords()
    ensures types { TypesAreNoKeywords }
    ensures members { MembersAreNoKeywords }
    ensures inputs { InputsAreNoKeywords }
{}

/// The methods that try are named apart from one another, from each constant, field and method
/// where their name is free, and from the words that have a meaning.
pub fn try_names_stay_apart()
    ensures tries { TriesStayApart }
    ensures members { TriesStandFree }
    ensures words { TriesAreNoKeywords }
{}

/// So are the methods whose calls are given a function, and those of them that try, where their
/// names are free: also from the methods that try, and from one another.
pub fn with_names_stay_apart()
    ensures withs { WithsStayApart }
    ensures free { WithsStandFree }
    ensures tries { TryWithsStandFree }
    ensures words { WithsAreNoKeywords }
{}

/// So are the methods whose calls have a time, where their names are free: from one another, and
/// from all others of the module.
pub fn lasting_names_stay_apart()
    ensures apart { LastingStayApart }
    ensures free { LastingStandFree }
    ensures withs { LastingWithsStandFree }
    ensures words { LastingAreNoKeywords }
{}
