//! The text of a certificate, written to a sink.

ghost use Rattle.std.specs.Prelude.{◌++◌, codes};
ghost use Rattle.std.specs.List.{flat_map};
ghost use Rattle.base_io.specs.Writing.{Wrote};
ghost use Rattle.logic_cert.specs.CertText.{cert_text, combine_text, form_text};
ghost use Rattle.logic_cert.specs.CertText.{multiple_text, term_text};
ghost use Rattle.logic_cert.specs.inner.Texts.{later_text, later_texts};

use super::cert::{Cert, Combine};
use base_io::{Sink, SinkFailed, write_piece, write_pieces};
use itoa::{Buffer, Integer};
use logic_linear::{Lin, Term};

/// Writes the text of a certificate. It takes no memory, and calls itself once for each level of
/// splits and cases in one another.
///
/// After `SinkFailed` the first bytes were taken, fewer than all and maybe none.
#[cycle(print_cert)]
pub fn print_cert<S: Sink>(cert: &Cert, out: &mut S) -> Result<(), SinkFailed>
    ensures { Wrote (S.seen out.old) (S.seen out.new) result (cert_text cert.now) }
{
    match cert {
        Cert::Split(certs) => {
            write_word(b"split ", certs.items().len(), out)?;
            write_certs(certs.items(), out)
        }
        Cert::Clash { left, right } => {
            write_word(b"clash ", *left, out)?;
            write_number(*right, out)
        }
        Cert::Chain(combines) => {
            write_word(b"chain ", combines.items().len(), out)?;
            write_combines(combines.items(), out)
        }
        Cert::Cases { form, below, above } => {
            write_cases(form, out)?;
            write_side(b" below ", below.get(), out)?;
            write_side(b" above ", above.get(), out)
        }
    }
}

/// A word and the certificate of a side.
#[cycle(print_cert)]
fn write_side<S: Sink>(word: &[u8], cert: &Cert, out: &mut S) -> Result<(), SinkFailed>
    ensures { Wrote (S.seen out.old) (S.seen out.new) result (word.now ++ cert_text cert.now) }
{
    write_piece(word, out)?;
    print_cert(cert, out)
}

#[cycle(print_cert)]
fn write_certs<S: Sink>(certs: &[Cert], out: &mut S) -> Result<(), SinkFailed>
    ensures { Wrote (S.seen out.old) (S.seen out.new) result (later_texts certs.now) }
{
    for cert in certs {
        write_later(cert, out)?;
    }
    Ok(())
}

#[cycle(print_cert)]
fn write_later<S: Sink>(cert: &Cert, out: &mut S) -> Result<(), SinkFailed>
    ensures { Wrote (S.seen out.old) (S.seen out.new) result (later_text cert.now) }
{
    write_piece(b" ", out)?;
    print_cert(cert, out)
}

/// The word of cases and their form.
fn write_cases<S: Sink>(form: &Lin, out: &mut S) -> Result<(), SinkFailed>
    ensures { Wrote (S.seen out.old) (S.seen out.new) result
        (codes "cases " ++ form_text form.now) }
{
    write_word(b"cases ", form.terms().len(), out)?;
    write_terms(form.terms(), out)?;
    write_number(form.constant(), out)
}

fn write_terms<S: Sink>(terms: &[Term], out: &mut S) -> Result<(), SinkFailed>
    ensures { Wrote (S.seen out.old) (S.seen out.new) result (flat_map term_text terms.now) }
{
    for term in terms {
        write_multiple(term.place, term.times, out)?;
    }
    Ok(())
}

fn write_combines<S: Sink>(combines: &[Combine], out: &mut S) -> Result<(), SinkFailed>
    ensures { Wrote (S.seen out.old) (S.seen out.new) result (flat_map combine_text combines.now) }
{
    for combine in combines {
        write_combine(*combine, out)?;
    }
    Ok(())
}

fn write_combine<S: Sink>(combine: Combine, out: &mut S) -> Result<(), SinkFailed>
    ensures { Wrote (S.seen out.old) (S.seen out.new) result (combine_text combine) }
{
    write_multiple(combine.left, combine.left_times, out)?;
    write_multiple(combine.right, combine.right_times, out)
}

fn write_multiple<S: Sink>(row: u32, times: i128, out: &mut S) -> Result<(), SinkFailed>
    ensures { Wrote (S.seen out.old) (S.seen out.new) result (multiple_text row times) }
{
    write_number(row, out)?;
    write_number(times, out)
}

/// A blank and a number.
fn write_number<I: Integer, S: Sink>(number: I, out: &mut S) -> Result<(), SinkFailed>
    ensures { Wrote (S.seen out.old) (S.seen out.new) result (codes " " ++ I.text number) }
{
    write_word(b" ", number, out)
}

/// A word and a number.
fn write_word<I: Integer, S: Sink>(word: &[u8], number: I, out: &mut S) -> Result<(), SinkFailed>
    ensures { Wrote (S.seen out.old) (S.seen out.new) result (word.now ++ I.text number) }
{
    let mut buffer = Buffer::new();
    write_pieces(&[word, buffer.format(number).as_bytes()], out)
}
