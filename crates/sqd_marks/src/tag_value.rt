ghost use Rattle.std.specs.Prelude.{◌≡◌, ◌⊎◌, ◌<◌, ◌≤◌, ◌++◌, ◌∷◌, [], ℕ, List, length, IfSome, IfNone, IsNone, MatchOption};
ghost use Rattle.std.specs.Option.{option_copied};
ghost use Rattle.sqd_marks.specs.Bytes.{is_blank, is_in_value, Each};
ghost use Rattle.sqd_marks.specs.Marks.{Attribute, IsAttribute, Tag, attribute_bytes};
ghost use Rattle.sqd_marks.specs.Tags.{IsTagOf, IsTail, IsFirstOrNone, attribute_value};

use crate::span::{ByteKind, SplitBytes, cut_span};
use crate::tag::tag_parts;

/// An attribute in front of the tail of a tag, and what is behind it.
#[derive(Clone, Copy)]
pub struct FirstAttribute<'a> {
    pub name: &'a [u8],
    pub value: &'a [u8],
    pub behind: &'a [u8],
}

// A byte, and what is behind it.
#[derive(Clone, Copy)]
struct First<'a> {
    byte: u8,
    behind: &'a [u8],
}

fn first_byte(bytes: &[u8]) -> Option<First>
    ensures none { IfNone result (bytes.now ≡ []) }
    ensures parts { IfSome result (λ f. bytes.now ≡ f.byte ∷ f.behind.now) }
{
    match bytes {
        [b, rest @ ..] => Some(First {
            byte: *b,
            behind: rest,
        }),
        _ => None,
    }
}

// The name of an attribute in front, and what is behind the byte after it and its blanks.
fn name_part(left: &[u8]) -> Option<SplitBytes>
    ensures some { (a : Attribute) (more : List ℕ) → IsAttribute a
        → left.now ≡ attribute_bytes a ++ more → MatchOption result ⊥ (λ p. (p.front.now ≡ a.name)
        × (p.behind.now ≡ a.right ++ (a.quote ∷ (a.value ++ a.quote ∷ more)))) }
    ensures none { IsTail [] left.now → IsNone result }
    ensures shorter { IfSome result (λ p. length p.behind.now < length left.now) }
{
    let name = cut_span(cut_span(left, ByteKind::Blank).behind, ByteKind::InName);
    if name.front.is_empty() {
        return None;
    }
    match first_byte(cut_span(name.behind, ByteKind::Blank).behind) {
        None => None,
        Some(equals) => Some(SplitBytes {
            front: name.front,
            behind: equals.behind,
        }),
    }
}

// The value in front, behind blanks, and what is behind its second quote.
fn value_part(left: &[u8]) -> Option<SplitBytes>
    ensures some { (right value more : List ℕ) (quote : ℕ) → Each is_blank right
        → (quote ≡ 34) ⊎ (quote ≡ 39) → Each (is_in_value quote) value
        → left.now ≡ right ++ (quote ∷ (value ++ quote ∷ more))
        → MatchOption result ⊥ (λ p. (p.front.now ≡ value) × (p.behind.now ≡ more)) }
    ensures shorter { IfSome result (λ p. length p.behind.now ≤ length left.now) }
{
    match first_byte(cut_span(left, ByteKind::Blank).behind) {
        None => None,
        Some(quote) => {
            let value = cut_span(quote.behind, ByteKind::InValue(quote.byte));
            match first_byte(value.behind) {
                None => None,
                Some(last) => Some(SplitBytes {
                    front: value.front,
                    behind: last.behind,
                }),
            }
        }
    }
}

// The first attribute of the tail of a tag.
fn next_attribute(left: &[u8]) -> Option<FirstAttribute>
    ensures next { (attributes : List Attribute) → IsTail attributes left.now
        → IsFirstOrNone attributes result }
    ensures shorter { IfSome result (λ p. length p.behind.now < length left.now) }
{
    match name_part(left) {
        None => None,
        Some(name) => match value_part(name.behind) {
            None => None,
            Some(value) => Some(FirstAttribute {
                name: name.front,
                value: value.front,
                behind: value.behind,
            }),
        },
    }
}

// The tail of a tag behind its name: all its attributes.
fn all_attributes(mark: &[u8]) -> &[u8]
    ensures tail { (t : Tag) → IsTagOf t mark.now → IsTail t.attributes result.now }
{
    tag_parts(mark).behind
}

/// The value of the first attribute of this name in a start mark or an empty mark, without its
/// quotes, or `None` where it has no such attribute. Of several of one name the first counts.
pub fn attribute<'a>(mark: &'a [u8], name: &[u8]) -> Option<&'a [u8]>
    ensures value { (t : Tag) → IsTagOf t mark.now
        → option_copied result ≡ attribute_value name.now t.attributes }
{
    let mut left = all_attributes(mark);
    'parts: loop {
        match next_attribute(left) {
            None => return None,
            Some(part) => {
                if part.name == name {
                    return Some(part.value);
                }
                left = part.behind;
            }
        }
    }
}
