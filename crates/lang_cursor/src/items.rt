//! Item after item off a cursor, while another one begins.

ghost use Rattle.std.specs.Prelude.{◌≡◌, ◌∷◌, Bool, IfOk, List};
ghost use Rattle.lang_tokens.specs.Words.{Word};
ghost use Rattle.lang_cursor.specs.Reading.{Read, each_at};
ghost use Rattle.lang_cursor.specs.Calls.{Answers, AreItems, Reads, Shortens};
ghost use Rattle.lang_cursor.specs.Takes.{Takes};

use super::cursor::Cursor;
use super::fault::Stop;
use base_list::Seq;
use std::alloc::{AllocError, Global};

/// item*
pub fn many<'a, T: Drop, S: Fn(&Cursor<'a>) -> bool, F: Fn(&mut Cursor<'a>) -> Result<T, Stop>>(
    alloc: Global,
    input: &mut Cursor<'a>,
    begins: S,
    item: F,
) -> Result<Seq<T>, Stop>
    requires asked { S.IsAlwaysCallable begins }
    requires called { F.IsAlwaysCallable item }
    requires shorter { Shortens F.Fn item }
    ensures { (starts : List Word → Bool) (read : List Word → Read T)
        → Answers S.Fn begins starts → Reads F.Fn item read → AreItems starts read
        → Takes result input.new (each_at starts read input.old) }
{
    let mut out = Vec::new(alloc);
    'items: while begins(input) {
        let item = item(input)?;
        out.push(item)?;
    }
    Ok(Seq::of(out))
}

/// The first before the rest.
pub fn with_first<T: Drop>(first: T, rest: Seq<T>) -> Result<Seq<T>, AllocError>
    ensures { IfOk result (λ all. all ≡ first ∷ rest) }
{
    let mut all = rest.into_items();
    all.insert(0, first)?;
    Ok(Seq::of(all))
}
