//! The text of an expression in memory.

ghost use Rattle.std.specs.Prelude.{◌≡◌, IfOk};
ghost use Rattle.lang_printer.specs.Canonical.{expression_text};

use super::expressions::write_around;
use base_io::GrowingSink;
use lang_tree::Expr;
use std::alloc::{AllocError, Global};

/// The canonical form of an expression. It fails only for want of memory.
pub fn shown_text(alloc: Global, expression: &Expr) -> Result<Vec<u8>, AllocError>
    ensures { IfOk result (λ text. text.items ≡ expression_text expression.now) }
{
    let mut out = GrowingSink::new(alloc);
    write_around(&[], expression, b"", &mut out).map_err(|_| AllocError)?;
    Ok(out.into_bytes())
}
