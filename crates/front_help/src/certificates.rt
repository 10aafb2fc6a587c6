//! The text of a certificate in a line of a report.

use crate::lines::from;
use lang_base::is_digit;

/// The most digits of a row's number, and of a factor.
const ROW_DIGITS: usize = 10;

const FACTOR_DIGITS: usize = 39;

/// How many numbers a chain has for each row that it makes.
const NUMBERS_OF_A_ROW: u64 = 4;

/// For how many certificates that are due it is kept whether `above` comes before them.
const MOST_SIDES: u64 = 128;

/// What may come next in a certificate: so many numbers of a chain's rows, of a clash or of the
/// form of cases are to come.
#[derive(Clone, Copy)]
enum Next {
    Word,
    Parts,
    Rows,
    Terms,
    Below,
    Above,
    ClashNumbers(u64),
    ChainNumbers(u64),
    FormNumbers(u64),
}

/// How far a certificate has been read: how many certificates are due, and in `sides` a bit for
/// each number of them before which `above` comes.
#[derive(Clone, Copy)]
struct Reading {
    next: Next,
    due: u64,
    sides: u128,
}

/// Where a certificate stops being one, and what is said of the place; nothing where it is whole.
pub(crate) fn certificate_slip(text: &[u8]) -> Option<(usize, &'static [u8])> {
    let mut reading = Reading {
        next: Next::Word,
        due: 1,
        sides: 0,
    };
    let mut at = 0;
    for _word in 0..text.len() {
        let word = word_from(text, at);
        let Some(read) = reading.after(word) else {
            return Some((at, reading.said()));
        };
        reading = read;
        at = at.saturating_add(word.len());
        if reading.due == 0 {
            return end_slip(text, at);
        }
        if !from(text, at).starts_with(b" ") {
            return Some((at, reading.said()));
        }
        at = at.saturating_add(1);
    }
    Some((at, reading.said()))
}

/// What is said of a place behind a whole certificate.
fn end_slip(text: &[u8], at: usize) -> Option<(usize, &'static [u8])> {
    if at < text.len() {
        Some((at, b"the line is to end here"))
    } else {
        None
    }
}

/// The bytes from a place on up to the next blank.
fn word_from(text: &[u8], start: usize) -> &[u8] {
    let rest = from(text, start);
    let length = rest.iter().take_while(|byte| **byte != b' ').count();
    rest.get(..length).unwrap_or(rest)
}

impl Reading {
    /// What is read after this word, where it may stand here.
    fn after(self, word: &[u8]) -> Option<Reading> {
        match self.next {
            Next::Word => self.after_word(word),
            Next::Parts => {
                let parts = number_in(word, ROW_DIGITS)?;
                Some(self.split(parts))
            }
            Next::Rows => {
                let rows = number_in(word, ROW_DIGITS)?;
                Some(self.chaining(rows.saturating_mul(NUMBERS_OF_A_ROW)))
            }
            Next::Terms => {
                let terms = number_in(word, ROW_DIGITS)?;
                Some(self.forming(terms.saturating_mul(2).saturating_add(1)))
            }
            Next::Below => self.going_on(word, b"below"),
            Next::Above => self.going_on(word, b"above"),
            Next::ClashNumbers(left) => {
                let _row = number_in(word, ROW_DIGITS)?;
                Some(self.clashing(left.saturating_sub(1)))
            }
            Next::ChainNumbers(left) => {
                if !is_number_of_pair(word, left % 2 == 0) {
                    return None;
                }
                Some(self.chaining(left.saturating_sub(1)))
            }
            Next::FormNumbers(left) => {
                if !is_number_of_pair(word, left % 2 == 1 && left > 1) {
                    return None;
                }
                Some(self.forming(left.saturating_sub(1)))
            }
        }
    }

    /// What is read after the first word of a certificate.
    fn after_word(self, word: &[u8]) -> Option<Reading> {
        if word == b"split".as_slice() {
            Some(self.going_to(Next::Parts))
        } else if word == b"clash".as_slice() {
            Some(self.clashing(2))
        } else if word == b"chain".as_slice() {
            Some(self.going_to(Next::Rows))
        } else if word == b"cases".as_slice() {
            Some(self.going_to(Next::Terms))
        } else if self.due >= MOST_SIDES {
            self.going_on(word, b"above")
        } else {
            None
        }
    }

    /// The word of a side, after which a certificate comes.
    fn going_on(self, word: &[u8], side: &[u8]) -> Option<Reading> {
        if word == side {
            Some(self.going_to(Next::Word))
        } else {
            None
        }
    }

    /// The same, with something else next.
    fn going_to(self, next: Next) -> Reading {
        Reading {
            next,
            due: self.due,
            sides: self.sides,
        }
    }

    /// One certificate fewer is due.
    fn ended(self) -> Reading {
        let due = self.due.saturating_sub(1);
        let side = side_at(due);
        let next = if self.sides & side == 0 {
            Next::Word
        } else {
            Next::Above
        };
        Reading {
            next,
            due,
            sides: self.sides & !side,
        }
    }

    /// The certificates of so many parts are due.
    fn split(self, parts: u64) -> Reading {
        if parts == 0 {
            return self.ended();
        }
        Reading {
            next: Next::Word,
            due: self.due.saturating_add(parts - 1),
            sides: self.sides,
        }
    }

    /// So many numbers of a clash are to come.
    fn clashing(self, left: u64) -> Reading {
        if left == 0 {
            self.ended()
        } else {
            self.going_to(Next::ClashNumbers(left))
        }
    }

    /// So many numbers of a chain are to come.
    fn chaining(self, left: u64) -> Reading {
        if left == 0 {
            self.ended()
        } else {
            self.going_to(Next::ChainNumbers(left))
        }
    }

    /// So many numbers of a form are to come, and then both sides.
    fn forming(self, left: u64) -> Reading {
        if left == 0 {
            Reading {
                next: Next::Below,
                due: self.due.saturating_add(1),
                sides: self.sides | side_at(self.due),
            }
        } else {
            self.going_to(Next::FormNumbers(left))
        }
    }

    /// What is said of a place at which this can't go on.
    fn said(self) -> &'static [u8] {
        match self.next {
            Next::Word => b"expected `split`, `clash`, `chain` or `cases`",
            Next::Parts => b"expected a number: into how many parts it splits",
            Next::Rows => b"expected a number: how many rows the chain makes",
            Next::Terms => b"expected a number: how many terms the form has",
            Next::Below => b"expected `below`: the certificate where the form is at most 0",
            Next::Above => b"expected `above`: the certificate where the form is at least 1",
            Next::ClashNumbers(_) => b"expected the number of a row or a flag",
            Next::FormNumbers(_) => {
                b"expected a number: `2 0 4 1 -1 7` is 4 times place 0, -1 times place 1, and 7"
            }
            Next::ChainNumbers(_) => {
                b"expected a number: a row is made as `0 1 4 1`, row 0 once and row 4 once"
            }
        }
    }
}

/// The bit of so many certificates that are due.
fn side_at(due: u64) -> u128 {
    if due < MOST_SIDES { 1 << due } else { 0 }
}

/// Whether this is the number of a row or a place, where one is due, and else a factor.
fn is_number_of_pair(word: &[u8], is_place: bool) -> bool {
    if is_place {
        return number_in(word, ROW_DIGITS).is_some();
    }
    match word.strip_prefix(b"-") {
        Some(digits) => digits != b"0".as_slice() && is_number(digits, FACTOR_DIGITS),
        None => is_number(word, FACTOR_DIGITS),
    }
}

/// Whether these are at most so many digits, the first of which is no needless 0.
fn is_number(word: &[u8], most: usize) -> bool {
    let digits = word.iter().take_while(|byte| is_digit(**byte)).count();
    let padded = word.len() > 1 && word.starts_with(b"0");
    digits == word.len() && digits > 0 && digits <= most && !padded
}

/// The number of at most so many digits that a word is.
fn number_in(word: &[u8], most: usize) -> Option<u64> {
    if !is_number(word, most) {
        return None;
    }
    let mut value: u64 = 0;
    for digit in word {
        value = value
            .saturating_mul(10)
            .saturating_add((*digit).saturating_sub(b'0') as u64);
    }
    Some(value)
}
