// Texts cut at a byte.
ghost use Rattle.std.specs.Prelude.{◌≡◌, ◌∷◌, [], ℕ, List, eqb, IfOk, IfSome, IfNone, map};
ghost use Rattle.std.specs.List.{slice_split};

use sidb_units::Memory;
use std::alloc::Global;
use text_rows::cut;

/// Two parts of a text.
#[derive(Clone, Copy)]
pub(crate) struct Two<'a> {
    pub first: &'a [u8],
    pub second: &'a [u8],
}

/// Three parts of a text.
#[derive(Clone, Copy)]
pub(crate) struct Three<'a> {
    pub first: &'a [u8],
    pub second: &'a [u8],
    pub third: &'a [u8],
}

/// What stands between such bytes.
pub(crate) fn parts_in(alloc: Global, text: &[u8], byte: u8) -> Result<Vec<&[u8]>, Memory>
    ensures { IfOk result (λ found. map (λ w. w.now) found.items
        ≡ slice_split (λ b. eqb b byte) text.now) }
{
    let mut found = Vec::new(alloc);
    let mut rest = text;
    while let Some((part, behind)) = cut(rest, byte) {
        found.push(part)?;
        rest = behind;
    }
    found.push(rest)?;
    Ok(found)
}

/// The two parts between such bytes, or `None` where there are not two.
pub(crate) fn in_two(text: &[u8], byte: u8) -> Option<Two<'_>>
    ensures found { IfSome result (λ two. slice_split (λ b. eqb b byte) text.now
        ≡ two.first.now ∷ two.second.now ∷ []) }
    ensures none { IfNone result ((x y : List ℕ) → slice_split (λ b. eqb b byte) text.now ≡ x ∷ y ∷ []
        → ⊥) }
{
    let (first, second) = cut(text, byte)?;
    match cut(second, byte) {
        None => Some(Two { first, second }),
        Some(_) => None,
    }
}

/// The three parts between such bytes, or `None` where there are not three.
pub(crate) fn in_three(text: &[u8], byte: u8) -> Option<Three<'_>>
    ensures found { IfSome result (λ three. slice_split (λ b. eqb b byte) text.now
        ≡ three.first.now ∷ three.second.now ∷ three.third.now ∷ []) }
    ensures none { IfNone result ((x y z : List ℕ)
        → slice_split (λ b. eqb b byte) text.now ≡ x ∷ y ∷ z ∷ [] → ⊥) }
{
    let (first, behind) = cut(text, byte)?;
    let Two {
        first: second,
        second: third,
    } = in_two(behind, byte)?;
    Some(Three {
        first,
        second,
        third,
    })
}
