//! Names as Rust has them, written to a sink.

ghost use Rattle.std.specs.Prelude.{◌≡◌, ◌==◌, ◌&&◌, ◌||◌, ◌++◌, [], if◌then◌else◌, map};
ghost use Rattle.std.specs.Prelude.{codes, not};
ghost use Rattle.std.specs.List.{list_any};
ghost use Rattle.std.specs.Str.{bytes_eq};
ghost use Rattle.emit_names.specs.Letters.{camel, camel_from, marked, raised, spelled, starts};
ghost use Rattle.emit_names.specs.Names.{escape_text, escaped, input_name, is_escaped};
ghost use Rattle.emit_names.specs.Names.{is_shifted, meets, member_name, style_in, type_name};
ghost use Rattle.emit_names.specs.Names.{ended_name, ending_text, has_parameters, is_parameter};
ghost use Rattle.emit_names.specs.Names.{member_words};
ghost use Rattle.emit_names.specs.inner.Reading.{after_mark, rest_of, takes};
ghost use Rattle.emit_names.specs.inner.Spellings.{spelling_text};
ghost use Rattle.emit_names.specs.declared.style.Style.TheVariants as styles;
ghost use Rattle.base_io.specs.Writing.{Wrote};

use crate::endings::{Ending, ending_bytes};
use crate::spelling::{Spelling, spelling_of};
use crate::style::{Style, begins_word, cased, upper};
use base_io::{Sink, SinkFailed, write_piece};
use lang_base::{Name, Named, is_letter};
use lang_tree::{Decl, MethodTree, MonitorTree};

const KEYWORDS: [&[u8]; 52] = [
    b"as",
    b"break",
    b"const",
    b"continue",
    b"crate",
    b"else",
    b"enum",
    b"extern",
    b"false",
    b"fn",
    b"for",
    b"if",
    b"impl",
    b"in",
    b"let",
    b"loop",
    b"match",
    b"mod",
    b"move",
    b"mut",
    b"pub",
    b"ref",
    b"return",
    b"self",
    b"Self",
    b"static",
    b"struct",
    b"super",
    b"trait",
    b"true",
    b"type",
    b"unsafe",
    b"use",
    b"where",
    b"while",
    b"async",
    b"await",
    b"dyn",
    b"abstract",
    b"become",
    b"box",
    b"do",
    b"final",
    b"gen",
    b"macro",
    b"override",
    b"priv",
    b"try",
    b"typeof",
    b"unsized",
    b"virtual",
    b"yield",
];

const TYPE_WORDS: [&[u8]; 20] = [
    b"Inner",
    b"State",
    b"Overflow",
    b"Refused",
    b"Failed",
    b"Mutex",
    b"MutexGuard",
    b"Condvar",
    b"PoisonError",
    b"Default",
    b"From",
    b"Result",
    b"Drop",
    b"FnOnce",
    b"HandOn",
    b"D",
    b"R",
    b"Duration",
    b"Instant",
    b"Option",
];

const MEMBER_WORDS: [&[u8]; 5] = [
    b"new",
    b"with_data",
    b"get_mut",
    b"into_inner",
    b"is_poisoned",
];

// Those, and what the functions name that open a monitor which has parameters.
const CHOICE_WORDS: [&[u8]; 14] = [
    b"new",
    b"with_data",
    b"get_mut",
    b"into_inner",
    b"is_poisoned",
    b"admits",
    b"data",
    b"Ok",
    b"Err",
    b"Some",
    b"None",
    b"Overflow",
    b"Refused",
    b"HandOn",
];

const INPUT_WORDS: [&[u8]; 24] = [
    b"inner",
    b"copy",
    b"next",
    b"answer",
    b"f",
    b"hand",
    b"result",
    b"end",
    b"time",
    b"left",
    b"lock",
    b"wait",
    b"wait_for",
    b"time_left",
    b"narrow",
    b"whole",
    b"drop",
    b"Ok",
    b"Err",
    b"Some",
    b"None",
    b"Overflow",
    b"Refused",
    b"HandOn",
];

/// Writes the name of a constant, a field or a method as Rust has it. It takes no memory.
///
/// After `SinkFailed` the first bytes were taken, fewer than all and maybe none.
pub fn write_member<S: Sink>(
    tree: &MonitorTree,
    style: Style,
    name: &Name,
    out: &mut S,
) -> Result<(), SinkFailed>
    ensures { Wrote (S.seen out.old) (S.seen out.new) result (member_name tree.now style name.now) }
{
    let bytes = name.bytes();
    let style = style_in(tree.decls.items(), tree.methods.items(), style, bytes);
    write_escaped(is_member_escaped(tree, style, bytes), style, bytes, out)
}

/// The name of a constant, a field or a method as Rust has it, after a word.
pub(crate) fn member_spelling<'a>(
    tree: &MonitorTree,
    word: &'a [u8],
    style: Style,
    name: &'a Name,
) -> Spelling<'a>
    ensures { spelling_text result ≡ word.now ++ member_name tree.now style name.now }
{
    let bytes = name.bytes();
    let style = style_in(tree.decls.items(), tree.methods.items(), style, bytes);
    let escaped = is_member_escaped(tree, style, bytes);
    spelling_of(word, style, bytes, escape_bytes(escaped))
}

/// The name of a method with an ending, after a word.
pub(crate) fn ended_spelling<'a>(
    tree: &MonitorTree,
    word: &'a [u8],
    name: &'a Name,
    ending: Ending,
) -> Spelling<'a>
    ensures { spelling_text result ≡ word.now ++ ended_name tree.now ending name.now }
{
    let bytes = name.bytes();
    let style = style_in(
        tree.decls.items(),
        tree.methods.items(),
        Style::Snake,
        bytes,
    );
    let escaped = is_member_escaped(tree, style, bytes);
    spelling_of(word, style, bytes, ended_bytes(escaped, ending))
}

fn ended_bytes(escaped: bool, ending: Ending) -> &'static [u8]
    ensures { result.now ≡ escape_text escaped ++ ending_text ending }
{
    if escaped {
        return escaped_ending(ending);
    }
    ending_bytes(ending)
}

fn escaped_ending(ending: Ending) -> &'static [u8]
    ensures { result.now ≡ codes "_" ++ ending_text ending }
{
    match ending {
        Ending::With => b"__with",
        Ending::Until => b"__until",
        Ending::For => b"__for",
        Ending::UntilWith => b"__until_with",
        Ending::ForWith => b"__for_with",
    }
}

/// Writes the name of a parameter or a local as Rust has it. It takes no memory.
///
/// After `SinkFailed` the first bytes were taken, fewer than all and maybe none.
pub fn write_input<S: Sink>(method: &MethodTree, name: &Name, out: &mut S) -> Result<(), SinkFailed>
    ensures { Wrote (S.seen out.old) (S.seen out.new) result (input_name method.now name.now) }
{
    let bytes = name.bytes();
    let style = style_in(
        method.inputs.items(),
        method.locals.items(),
        Style::Snake,
        bytes,
    );
    write_escaped(is_escaped(&INPUT_WORDS, style, bytes), style, bytes, out)
}

/// Whether a monitor has parameters, with which it is opened.
pub fn has_parameters(tree: &MonitorTree) -> bool
    ensures { result ≡ has_parameters tree.now }
{
    any_parameter(tree.decls.items())
}

fn any_parameter(declared: &[Decl]) -> bool
    ensures { result ≡ list_any is_parameter declared.now }
{
    declared.iter().any(|one| is_parameter(one))
}

/// Whether a declaration is that of a parameter.
pub fn is_parameter(declared: &Decl) -> bool
    ensures { result ≡ is_parameter declared.now }
{
    match declared {
        Decl::Param { .. } => true,
        Decl::Const { .. } | Decl::Int { .. } | Decl::Copied { .. } | Decl::Flag { .. } => false,
    }
}

// ---- names of one scope

// A name that is not alone is written as it stands.
fn style_in<T: Named, U: Named>(first: &[T], more: &[U], style: Style, name: &[u8]) -> Style
    ensures { result ≡ style_in (map T.name_of first.now ++ map U.name_of more.now) style name.now }
{
    let met = is_met(first, name);
    let met_later = is_met(more, name);
    style_unless(met, met_later, style)
}

fn style_unless(met: bool, met_later: bool, style: Style) -> Style
    ensures { result ≡ if not (met || met_later) then style else styles.Kept }
{
    if met {
        return Style::Kept;
    }
    if met_later { Style::Kept } else { style }
}

/// Whether another of these has the snake form of the name.
pub(crate) fn is_met<T: Named>(items: &[T], name: &[u8]) -> bool
    ensures { result ≡ list_any (λ item. meets name.now (T.name_of item)) items.now }
{
    items.iter().any(|item| meets(name, item.name().bytes()))
}

fn meets(name: &[u8], other: &[u8]) -> bool
    ensures { result ≡ meets name.now other.now }
{
    other != name && are_same(0, other, 0, name)
}

// Whether two texts have one snake form, each after a byte.
#[cycle(are_same)]
fn are_same(before: u8, text: &[u8], other_before: u8, other: &[u8]) -> bool
    ensures { result ≡ bytes_eq (spelled styles.Snake before text.now)
        (spelled styles.Snake other_before other.now) }
{
    let [b, more @ ..] = text else {
        return is_nothing(other);
    };
    let [c, rest @ ..] = other else {
        return false;
    };
    let marked = begins_word(Style::Snake, before, *b);
    let other_marked = begins_word(Style::Snake, other_before, *c);
    if marked == other_marked {
        return cased(Style::Snake, *b) == cased(Style::Snake, *c) && are_same(*b, more, *c, rest);
    }
    if marked {
        return b'_' == cased(Style::Snake, *c) && are_same(0, text, *c, rest);
    }
    cased(Style::Snake, *b) == b'_' && are_same(*b, more, 0, other)
}

fn is_nothing(text: &[u8]) -> bool
    ensures { result ≡ bytes_eq [] text.now }
{
    match text {
        [_, ..] => false,
        _ => true,
    }
}

// ---- words that have a meaning

fn write_escaped<S: Sink>(
    escaped: bool,
    style: Style,
    name: &[u8],
    out: &mut S,
) -> Result<(), SinkFailed>
    ensures { Wrote (S.seen out.old) (S.seen out.new) result
        (spelled style 0 name.now ++ escape_text escaped) }
{
    write_spelled(style, 0, name, out)?;
    write_piece(escape_bytes(escaped), out)
}

fn escape_bytes(escaped: bool) -> &'static [u8]
    ensures { result.now ≡ escape_text escaped }
{
    if escaped { b"_" } else { b"" }
}

// Whether a word among those of the members of a monitor.
fn is_member_escaped(tree: &MonitorTree, style: Style, name: &[u8]) -> bool
    ensures { result ≡ is_escaped (member_words tree.now) (spelled style 0 name.now) }
{
    if has_parameters(tree) {
        return is_escaped(&CHOICE_WORDS, style, name);
    }
    is_escaped(&MEMBER_WORDS, style, name)
}

fn is_escaped(words: &[&[u8]], style: Style, name: &[u8]) -> bool
    ensures { result ≡ is_escaped (map (λ word. word.now) words.now) (spelled style 0 name.now) }
{
    let alone = is_shifted(b"", style, 0, name);
    let keyword = is_any_shifted(&KEYWORDS, style, name);
    let word = is_any_shifted(words, style, name);
    any_of(alone, keyword, word)
}

fn any_of(alone: bool, keyword: bool, word: bool) -> bool
    ensures { result ≡ (alone || (keyword || word)) }
{
    alone || (keyword || word)
}

fn is_any_shifted(words: &[&[u8]], style: Style, name: &[u8]) -> bool
    ensures { result ≡ list_any (λ word. is_shifted word.now (spelled style 0 name.now)) words.now }
{
    words.iter().any(|word| is_shifted(word, style, 0, name))
}

// Whether a text after a byte is the word, and then `_` alone.
#[cycle(is_shifted)]
fn is_shifted(word: &[u8], style: Style, before: u8, text: &[u8]) -> bool
    ensures { result ≡ is_shifted word.now (spelled style before text.now) }
{
    let [b, more @ ..] = text else {
        return is_ended(word);
    };
    let marked = begins_word(style, before, *b);
    let goes_on = !marked || takes(word, b'_');
    let left = after_mark(marked, word);
    let taken = takes(left, cased(style, *b));
    let rest = is_shifted(rest_of(left), style, *b, more);
    goes_on && (taken && rest)
}

fn after_mark(marked: bool, word: &[u8]) -> &[u8]
    ensures { result.now ≡ after_mark marked word.now }
{
    if marked { rest_of(word) } else { word }
}

// Whether the word may end here.
fn is_ended(word: &[u8]) -> bool
    ensures { result ≡ is_shifted word.now [] }
{
    match word {
        [_, ..] => false,
        _ => true,
    }
}

// Whether this byte may come next in a text that is the word, and then `_` alone.
fn takes(word: &[u8], b: u8) -> bool
    ensures { result ≡ takes word.now b }
{
    match word {
        [first, ..] => *first == b,
        _ => b == b'_',
    }
}

fn rest_of(word: &[u8]) -> &[u8]
    ensures { result.now ≡ rest_of word.now }
{
    match word {
        [_, rest @ ..] => rest,
        _ => word,
    }
}

// ---- letters

// A name after a byte, in a style.
fn write_spelled<S: Sink>(
    style: Style,
    before: u8,
    name: &[u8],
    out: &mut S,
) -> Result<(), SinkFailed>
    ensures { Wrote (S.seen out.old) (S.seen out.new) result (spelled style before name.now) }
{
    let [b, more @ ..] = name else {
        return Ok(());
    };
    write_piece(mark_bytes(begins_word(style, before, *b)), out)?;
    write_piece(&[cased(style, *b)], out)?;
    write_spelled(style, *b, more, out)
}

fn mark_bytes(begins: bool) -> &'static [u8]
    ensures { result.now ≡ marked begins [] }
{
    if begins { b"_" } else { b"" }
}

// ---- the name of a type

/// Writes the name of a monitor's type as Rust has it. It takes no memory.
///
/// After `SinkFailed` the first bytes were taken, fewer than all and maybe none.
pub fn write_type<S: Sink>(tree: &MonitorTree, out: &mut S) -> Result<(), SinkFailed>
    ensures { Wrote (S.seen out.old) (S.seen out.new) result (type_name tree.now) }
{
    let name = tree.name.bytes();
    write_camel(true, name, out)?;
    write_piece(escape_bytes(is_camel_escaped(&TYPE_WORDS, name)), out)
}

fn write_camel<S: Sink>(raise: bool, name: &[u8], out: &mut S) -> Result<(), SinkFailed>
    ensures { Wrote (S.seen out.old) (S.seen out.new) result (camel_from raise name.now) }
{
    let [b, more @ ..] = name else {
        return Ok(());
    };
    if is_left_out(*b, more) {
        return write_camel(true, more, out);
    }
    write_piece(&[raised(raise, *b)], out)?;
    write_camel(false, more, out)
}

// Whether a `_` is left out before what comes after it.
fn is_left_out(b: u8, more: &[u8]) -> bool
    ensures { result ≡ (b == 95 && starts more.now) }
{
    b == b'_' && starts(more)
}

fn starts(text: &[u8]) -> bool
    ensures { result ≡ starts text.now }
{
    match text {
        [b, ..] => is_letter(*b),
        _ => false,
    }
}

fn raised(raise: bool, b: u8) -> u8
    ensures { result ≡ raised raise b }
{
    if raise { upper(b) } else { b }
}

fn is_camel_escaped(words: &[&[u8]], name: &[u8]) -> bool
    ensures { result ≡ is_escaped (map (λ word. word.now) words.now) (camel name.now) }
{
    let alone = is_camel_shifted(b"", true, name);
    let keyword = is_any_camel_shifted(&KEYWORDS, name);
    let word = is_any_camel_shifted(words, name);
    any_of(alone, keyword, word)
}

fn is_any_camel_shifted(words: &[&[u8]], name: &[u8]) -> bool
    ensures { result ≡ list_any (λ word. is_shifted word.now (camel name.now)) words.now }
{
    words.iter().any(|word| is_camel_shifted(word, true, name))
}

// Whether the name of a type is the word, and then `_` alone.
#[cycle(is_camel_shifted)]
fn is_camel_shifted(word: &[u8], raise: bool, text: &[u8]) -> bool
    ensures { result ≡ is_shifted word.now (camel_from raise text.now) }
{
    let [b, more @ ..] = text else {
        return is_ended(word);
    };
    if is_left_out(*b, more) {
        return is_camel_shifted(word, true, more);
    }
    let taken = takes(word, raised(raise, *b));
    let rest = is_camel_shifted(rest_of(word), false, more);
    taken && rest
}
