//! What follows from the definitions alone.

ghost use Rattle.std.specs.Prelude.{◌≡◌, ◌<◌, true, false, All, List, length};
ghost use Rattle.std.specs.List.{Contains, list_all};
ghost use Rattle.logic_linear.specs.declared.formula.Formula.{Formula};
ghost use Rattle.logic_linear.specs.Truth.{Valuation, truth_of};
ghost use Rattle.lang_monitor.specs.declared.candidate.Candidate.{Candidate};
ghost use Rattle.lang_monitor.specs.declared.claim.Claim.{Claim};
ghost use Rattle.lang_monitor.specs.declared.monitor.Stmt.{Stmt};
ghost use Rattle.lang_monitor.specs.declared.query.Query.{Query};
ghost use Rattle.lang_monitor.specs.Bodies.{fits_64};
ghost use Rattle.lang_monitor.specs.Candidates.{AreSomeOf, candidates_of};
ghost use Rattle.lang_monitor.specs.Inputs.{reads_inputs};
ghost use Rattle.lang_monitor.specs.MonitorParts.{MonitorParts, IsMonitor};
ghost use Rattle.lang_monitor.specs.Paths.{path_count};
ghost use Rattle.lang_monitor.specs.Queries.{for_waiting, query_of};
ghost use Rattle.lang_monitor.specs.Triples.{IsValidQuery};
ghost use Rattle.logic_wp.specs.Expressible.{is_expressible};
ghost use Rattle.logic_wp.specs.PlainClaims.{is_plain, is_within_limits};
ghost use Rattle.logic_wp.specs.NegatedQueries.{negated_query, query_fails};
ghost use Rattle.logic_wp.specs.Paths.{body_paths};

/// A negated query is true at a valuation exactly where the triple of the query fails there: each
/// hypothesis is true, and the post formula is not after the body.
pub fn negated_query_is_exact()
    ensures { (monitor : MonitorParts) (query : Query) (v : Valuation)
        → IsMonitor monitor → query.block < length monitor.blocks
        → truth_of v (negated_query monitor query) ≡ query_fails monitor query v }
{}

/// A query whose negation is true nowhere is valid.
pub fn refuted_query_is_valid()
    ensures { (monitor : MonitorParts) (query : Query)
        → IsMonitor monitor → query.block < length monitor.blocks
        → ((v : Valuation) → truth_of v (negated_query monitor query) ≡ false)
        → IsValidQuery monitor query }
{}

/// A query whose negation is true at some valuation is not valid.
pub fn satisfied_query_is_invalid()
    ensures { (monitor : MonitorParts) (query : Query) (v : Valuation)
        → IsMonitor monitor → query.block < length monitor.blocks
        → truth_of v (negated_query monitor query) ≡ true
        → IsValidQuery monitor query → ⊥ }
{}

/// A body has as many paths as are counted.
pub fn paths_are_counted()
    ensures { (body : List Stmt) → length (body_paths body) ≡ path_count body }
{}

/// A guard that reads no inputs is the same for a client that waits.
pub fn guard_without_inputs_stays()
    ensures { (guard : Formula) → reads_inputs guard ≡ false → for_waiting guard ≡ guard }
{}

/// Each candidate of a monitor whose numbers at the start fit 64 bits has a formula.
pub fn candidates_are_expressible()
    ensures { (monitor : MonitorParts)
        → IsMonitor monitor → All (λ field. fits_64 field.start ≡ true) monitor.fields
        → list_all is_expressible (candidates_of monitor) ≡ true }
{}

/// Under fewer candidates no query is harder: where the query of a claim is within the limits, or
/// plain, under some candidates, it is so under some of them.
pub fn fewer_kept_are_no_harder()
    ensures within { (monitor : MonitorParts) (claim : Claim) (kept all : List Candidate)
        → AreSomeOf kept all → is_within_limits monitor (query_of monitor all claim) ≡ true
        → is_within_limits monitor (query_of monitor kept claim) ≡ true }
    ensures plain { (monitor : MonitorParts) (claim : Claim) (kept all : List Candidate)
        → AreSomeOf kept all → is_plain monitor (query_of monitor all claim) ≡ true
        → is_plain monitor (query_of monitor kept claim) ≡ true }
{}

/// Under more candidates no query is less valid: where the query of a claim is valid under some
/// candidates, it is so under all lists that have these among them.
pub fn more_kept_leave_valid()
    ensures contained { (monitor : MonitorParts) (claim : Claim) (kept all : List Candidate)
        → All (Contains all) kept → IsValidQuery monitor (query_of monitor kept claim)
        → IsValidQuery monitor (query_of monitor all claim) }
    ensures some { (monitor : MonitorParts) (claim : Claim) (kept all : List Candidate)
        → AreSomeOf kept all → IsValidQuery monitor (query_of monitor kept claim)
        → IsValidQuery monitor (query_of monitor all claim) }
{}
