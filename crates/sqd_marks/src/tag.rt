ghost use Rattle.std.specs.Prelude.{◌≡◌, ℕ, List};
ghost use Rattle.sqd_marks.specs.Marks.{Tag, IsWellFormedMark, mark_bytes, close};
ghost use Rattle.sqd_marks.specs.Tags.{IsTagOf, IsTail};

use crate::span::{ByteKind, SplitBytes, cut_span};

/// The name of a tag, and what is behind it.
pub fn tag_parts(mark: &[u8]) -> SplitBytes
    ensures name { (t : Tag) → IsTagOf t mark.now → result.front.now ≡ t.name }
    ensures tail { (t : Tag) → IsTagOf t mark.now → IsTail t.attributes result.behind.now }
{
    match mark {
        [_, rest @ ..] => cut_span(rest, ByteKind::InName),
        _ => cut_span(mark, ByteKind::InName),
    }
}

/// The name of a start mark or an empty mark; for other bytes that behind the first byte.
pub fn tag_name(mark: &[u8]) -> &[u8]
    ensures name { (t : Tag) → IsTagOf t mark.now → result.now ≡ t.name }
{
    tag_parts(mark).front
}

/// The name of an end mark; for other bytes that behind the first two bytes.
pub fn end_name(mark: &[u8]) -> &[u8]
    ensures name { (name after : List ℕ) → IsWellFormedMark (close name after)
        → mark_bytes (close name after) ≡ mark.now → result.now ≡ name }
{
    match mark {
        [_, _, rest @ ..] => cut_span(rest, ByteKind::InName).front,
        _ => mark,
    }
}
