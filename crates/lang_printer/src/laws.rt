//! What follows from the definitions alone.

ghost use Rattle.lang_printer.specs.Laws.{ShownTextsAreLines};

/// The canonical form of an expression stands in one line, where its names are identifiers.
pub fn shown_texts_are_lines()
    ensures { ShownTextsAreLines }
{}
