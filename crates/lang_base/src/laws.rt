//! What follows from the definitions alone.

ghost use Rattle.std.specs.Prelude.{◌≡◌, List, [], None, Some};
ghost use Rattle.lang_base.specs.Least.{IsLeast, Order, least};

/// The least of a list is one of it that none comes before, and there is none only where the list
/// is empty.
pub fn least_is_least<T>()
    ensures one { (order : Order T) (among : List T) (x : T)
        → least order among ≡ Some x → IsLeast order among x }
    ensures none { (order : Order T) (among : List T) → least order among ≡ None → among ≡ [] }
{}
