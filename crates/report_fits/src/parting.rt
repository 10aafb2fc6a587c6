//! The parts of a report's text.

ghost use Rattle.std.specs.Prelude.{◌↔◌, ◌<◌, IsTrue, length};
ghost use Rattle.report_fits.specs.FitParts.{AreParts, GoesOnWithFit, HasFitAt, IsLineStart};
ghost use Rattle.std.specs.Prelude.{drop};

use report_proofs::after_piece;

/// The text of a report in two parts: up to the first line that begins with `proof fits `, and from
/// there on. Where there is none the second is empty.
pub fn part(bytes: &[u8]) -> (&[u8], &[u8])
    ensures { AreParts bytes.now result.0.now result.1.now }
{
    for place in 0..bytes.len() {
        if has_fit_at(bytes, place) {
            return bytes.split_at(place);
        }
    }
    bytes.split_at(bytes.len())
}

/// Whether a line that begins so begins at the place.
fn has_fit_at(bytes: &[u8], place: usize) -> bool
    requires { place < length bytes.now }
    ensures { IsTrue result ↔ HasFitAt bytes.now place }
{
    let start = is_line_start(bytes, place);
    let here = goes_on_with_fit(bytes, place);
    start && here
}

/// Whether a line begins at the place.
fn is_line_start(bytes: &[u8], place: usize) -> bool
    requires { place < length bytes.now }
    ensures { IsTrue result ↔ IsLineStart bytes.now place }
{
    place == 0 || bytes[place - 1] == 10
}

/// Whether the bytes from the place on begin with `proof fits `.
fn goes_on_with_fit(bytes: &[u8], place: usize) -> bool
    requires { place < length bytes.now }
    ensures { IsTrue result ↔ GoesOnWithFit (drop place bytes.now) }
{
    let (_front, rest) = bytes.split_at(place);
    begins_with_fit(rest)
}

fn begins_with_fit(bytes: &[u8]) -> bool
    ensures { IsTrue result ↔ GoesOnWithFit bytes.now }
{
    match after_piece(bytes, b"proof fits ") {
        Some(_rest) => true,
        None => false,
    }
}
