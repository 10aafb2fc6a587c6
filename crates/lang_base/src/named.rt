//! Names that stand twice.

ghost use Rattle.std.specs.Prelude.{◌≡◌, ◌≢◌, ◌↔◌, ◌<◌, AllPairs, Contains, IfSome, IsNone, IsTrue};
ghost use Rattle.std.specs.Prelude.{length, map};
ghost use Rattle.std.specs.List.{list_any};
ghost use Rattle.std.specs.Str.{bytes_eq};
ghost use Rattle.lang_base.specs.Names.{IsFirstRepeat, IsRepeated};

use super::name::Name;

/// What has a name.
pub trait Named {
    ghost use Rattle.std.specs.Prelude.{List, ℕ};

    ghost name_of: { Self → List ℕ };

    /// Its name.
    fn name(&self) -> &Name
        ensures { result.now ≡ name_of self.now };
}

/// The first place of a name that also stands earlier. There is none only where all names are
/// distinct.
pub fn first_repeat<T: Named>(items: &[T]) -> Option<usize>
    ensures repeated { IfSome result (IsFirstRepeat (map T.name_of items.now)) }
    ensures distinct { IsNone result
        ↔ AllPairs (λ item other. T.name_of item ≢ T.name_of other) items.now }
{
    for place in 0..items.len() {
        if is_repeated(items, place) {
            return Some(place);
        }
    }
    None
}

/// Whether the name at this place also stands earlier.
pub fn is_repeated<T: Named>(items: &[T], place: usize) -> bool
    requires { place < length items.now }
    ensures { IsTrue result ↔ IsRepeated (map T.name_of items.now) place }
{
    is_among(&items[..place], items[place].name())
}

/// Whether one of these has the name.
pub fn is_among<T: Named>(items: &[T], name: &Name) -> bool
    ensures { IsTrue result ↔ Contains (map T.name_of items.now) name.now }
{
    any_has(items, name.bytes())
}

fn any_has<T: Named>(items: &[T], name: &[u8]) -> bool
    ensures { result ≡ list_any (λ item. bytes_eq (T.name_of item) name.now) items.now }
{
    items.iter().any(|item| item.name().bytes() == name)
}
