//! What is done at a cell.

ghost use Rattle.std.specs.Prelude.{◌≡◌, ◌+◌, ◌⊎◌, ◌∷◌, [], Option, Some, IfOk, MatchResult};
ghost use Rattle.threads_desk.specs.declared.letter.Sheet.{Sheet};
ghost use Rattle.threads_desk.specs.declared.letter.Sheet.TheVariants.{Told};
ghost use Rattle.threads_desk.specs.declared.letter.Part.TheVariants.{Writing, Reading};
ghost use Rattle.threads_desk.specs.declared.rule.TheConstants.{ASKED, FREE, TOLD};
ghost use Rattle.threads_desk.specs.Letters.{IsDoneOf, IsFreeOf, IsKeptIn, IsMailOf, IsMissOf};
ghost use Rattle.threads_desk.specs.Letters.{IsTaskOf};
ghost use Rattle.threads_desk.specs.Letters.{about_of};

use crate::cell::Cell;
use crate::errand::Errand;
use crate::letter::{Done, Free, Mail, Miss, Sheet, Spot, Task};
use crate::rule::{
    ASKED, Begin, Board, Come, Deliver, FREE, Leave, Look, Post, SHEET, STANDING, Seek, TAKEN,
    TOLD, Take, WRITING, Withdraw,
};
use std::alloc::{AllocError, Global};
use std::sync::Wait;
use std::time::Duration;

impl<A, T, K, E: Errand<A, T, K>> Cell<A, T, K, E> {
    /// A cell with no letter.
    pub fn open(alloc: Global, about: &K) -> Result<Cell<A, T, K, E>, AllocError>
        ensures about { IfOk result (λ cell. about_of cell ≡ about.now) }
    {
        let (board, _first) = Board::vacant(alloc, &[FREE], 1, about)?;
        Ok(Cell { board })
    }

    /// Posts a letter, if the cell is free.
    pub fn post(&self, asked: A) -> Result<Mail<A, T, K>, (A, Miss<A, T, K>)>
        requires asks { E.asks (about_of self.now) asked }
        ensures posted { MatchResult result
            (λ mail. IsMailOf self.now mail asked)
            (λ back. (back.0 ≡ asked) × IsMissOf self.now FREE back.1) }
    {
        let shared = &self.board.shared;
        let (_found, mut seat) = shared.load_new_seat::<Come>(STANDING);
        let found = shared.compare_exchange::<Begin>(&mut seat, STANDING, FREE, WRITING);
        if found != FREE {
            return Err((asked, Miss { seat }));
        }
        let before = shared.exchange(&mut seat, SHEET, Some(Sheet::Asked(asked)));
        let None = before else { unreachable!() };
        shared.store::<Post>(&mut seat, STANDING, ASKED);
        Ok(Mail { seat })
    }

    /// Empties the cell, and gives what was in it.
    fn clear(&self, mut seat: Spot<A, T, K>) -> (Option<Sheet<A, T>>, Free<A, T, K>)
        requires own { seat.table_id ≡ self.now.board.shared.table_id }
        requires part { (seat.me.0.part ≡ Writing) ⊎ (seat.me.0.part ≡ Reading) }
        requires has { (sheet : Option (Sheet A T)) × (seat.me.1 ≡ (0, sheet) ∷ []) }
        ensures had { seat.me.1 ≡ (0, result.0) ∷ [] }
        ensures free { IsFreeOf self.now result.1 }
    {
        let shared = &self.board.shared;
        let sheet = shared.exchange(&mut seat, SHEET, None);
        shared.store::<Leave>(&mut seat, STANDING, FREE);
        (sheet, Free { seat })
    }

    /// Takes a letter, if one is posted.
    pub fn take(&self) -> Result<(A, Task<A, T, K>), Miss<A, T, K>>
        ensures taken { MatchResult result
            (λ had. E.asks (about_of self.now) had.0
            × IsTaskOf self.now had.1 had.0)
            (λ miss. IsMissOf self.now ASKED miss) }
    {
        let shared = &self.board.shared;
        let (posted, mut seat) = shared.load_new_seat::<Seek>(STANDING);
        if posted != ASKED {
            return Err(Miss { seat });
        }
        let found = shared.compare_exchange::<Take<E>>(&mut seat, STANDING, ASKED, TAKEN);
        if found != ASKED {
            return Err(Miss { seat });
        }
        let sheet = shared.exchange(&mut seat, SHEET, None);
        let Some(Sheet::Asked(asked)) = sheet else {
            unreachable!()
        };
        Ok((asked, Task { seat }))
    }

    /// Answers a letter that was taken in this cell.
    pub fn answer(&self, task: Task<A, T, K>, told: T) -> Done<A, T, K>
        requires task { (asked : A)
            × IsTaskOf self.now task asked
            × E.tells (about_of self.now) asked told }
        ensures done { (asked : A)
            → IsTaskOf self.now task asked
            → IsDoneOf self.now result asked told }
    {
        let Task { mut seat } = task;
        let shared = &self.board.shared;
        let before = shared.exchange(&mut seat, SHEET, Some(Sheet::Told(told)));
        let None = before else { unreachable!() };
        shared.store::<Deliver>(&mut seat, STANDING, TOLD);
        Done { seat }
    }

    /// What was told to a letter, if it is answered. Then the cell is free again.
    pub fn collect(&self, mail: Mail<A, T, K>) -> Result<(T, Free<A, T, K>), Mail<A, T, K>>
        requires mail { (asked : A)
            × IsMailOf self.now mail asked }
        ensures told { (asked : A)
            → IsMailOf self.now mail asked
            → MatchResult result
            (λ had. E.tells (about_of self.now) asked had.0 × IsFreeOf self.now had.1)
            (λ back. IsKeptIn self.now TOLD mail back asked) }
    {
        let Mail { mut seat } = mail;
        let found = self.board.shared.load::<Look<E>>(&mut seat, STANDING);
        if found != TOLD {
            return Err(Mail { seat });
        }
        let (sheet, free) = self.clear(seat);
        Ok((answer_in(sheet), free))
    }

    /// The letter, if nobody took it. Then the cell is free again.
    pub fn withdraw(&self, mail: Mail<A, T, K>) -> Result<(A, Free<A, T, K>), Mail<A, T, K>>
        requires mail { (asked : A)
            × IsMailOf self.now mail asked }
        ensures back { (asked : A)
            → IsMailOf self.now mail asked
            → MatchResult result
            (λ had. (had.0 ≡ asked) × IsFreeOf self.now had.1)
            (λ back. IsKeptIn self.now ASKED mail back asked) }
    {
        let Mail { mut seat } = mail;
        let shared = &self.board.shared;
        let found = shared.compare_exchange::<Withdraw>(&mut seat, STANDING, ASKED, WRITING);
        if found != ASKED {
            return Err(Mail { seat });
        }
        let (sheet, free) = self.clear(seat);
        let Some(Sheet::Asked(asked)) = sheet else {
            unreachable!()
        };
        Ok((asked, free))
    }

    /// Sleeps while the letter in this cell stands as it does, unless that is answered, and no
    /// longer than this. It may also return for no reason.
    pub fn rest<R: Wait>(&self, rt: &R, longest: Duration) {
        let shared = &self.board.shared;
        // Were it to wait on one word alone, a letter that stands otherwise would keep it awake.
        let found = shared.peek(STANDING);
        if found == ASKED || found == TAKEN {
            shared.park_timeout(rt, STANDING, found as u32, longest);
        }
    }

    /// Wakes whoever sleeps at this cell.
    pub fn wake(&self) {
        self.board.shared.wake_one(STANDING);
    }
}

/// The answer in a sheet that has one.
fn answer_in<A, T>(sheet: Option<Sheet<A, T>>) -> T
    requires told { (told : T) × (sheet ≡ Some (Told told)) }
    ensures told { sheet ≡ Some (Told result) }
{
    let Some(Sheet::Told(told)) = sheet else {
        unreachable!()
    };
    told
}
