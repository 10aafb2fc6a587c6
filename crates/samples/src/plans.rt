//! Plans that are put together by hand.

ghost use Rattle.std.specs.Prelude.{◌≡◌, [], IfOk, false};

use base_list::Seq;
use machine_events::{CondKind, Note, NoteList, Plan};
use std::alloc::{AllocError, Global};

/// A signal on a condition, by its number.
pub fn signal(condition: u32, tested: bool) -> Note
    ensures { result ≡ record { condition = condition; all = false; tested = tested } }
{
    Note {
        condition,
        all: false,
        tested,
    }
}

/// The list of one note or none.
fn note_list(alloc: Global, note: Option<Note>) -> Result<NoteList, AllocError> {
    let mut notes = Vec::new(alloc);
    match note {
        None => Ok(NoteList::of(notes)),
        Some(note) => {
            notes.push(note)?;
            Ok(NoteList::of(notes))
        }
    }
}

/// The plan of these kinds, with one note or none for each block. It keeps no candidate: no section
/// looks at those.
pub fn plan_of(
    alloc: Global,
    kinds: &[CondKind],
    notes: &[Option<Note>],
) -> Result<Plan, AllocError>
    ensures kept { IfOk result (λ plan. plan.kept ≡ []) }
    ensures kinds { IfOk result (λ plan. plan.kinds ≡ kinds.now) }
{
    let mut lists = Vec::new(alloc);
    for note in notes {
        lists.push(note_list(alloc, *note)?)?;
    }
    Ok(Plan {
        kept: Seq::of(Vec::new(alloc)),
        kinds: Seq::of(Vec::from_slice(alloc, kinds)?),
        notes: Seq::of(lists),
    })
}

/// The plan of two conditions and two blocks, which signal each other's condition.
pub fn signalling(alloc: Global) -> Result<Plan, AllocError>
    ensures { IfOk result (λ plan. plan.kept ≡ []) }
{
    let kinds = [CondKind::Signal, CondKind::Signal];
    let notes = [Some(signal(2, false)), Some(signal(1, false))];
    plan_of(alloc, kinds.as_slice(), notes.as_slice())
}
