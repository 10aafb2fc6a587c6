//! What is left of bytes after a text at their front.

ghost use Rattle.std.specs.List.{flat_map};
ghost use Rattle.report_proofs.specs.Fronts.{IsAfter};

/// What is left of the bytes after these pieces, one after the other, and none where the bytes
/// don't begin with them.
pub(crate) fn after<'a>(bytes: &'a [u8], pieces: &[&[u8]]) -> Option<&'a [u8]>
    ensures { IsAfter bytes.now (flat_map (λ piece. piece.now) pieces.now) result }
{
    let mut rest = bytes;
    for piece in pieces {
        match after_piece(rest, piece) {
            Some(left) => rest = left,
            None => return None,
        }
    }
    Some(rest)
}

/// What is left of the bytes after this piece, and none where they don't begin with it.
pub fn after_piece<'a>(bytes: &'a [u8], piece: &[u8]) -> Option<&'a [u8]>
    ensures { IsAfter bytes.now piece.now result }
{
    bytes.strip_prefix(piece)
}
