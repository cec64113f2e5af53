// Ranges of depths out of texts.
ghost use Rattle.std.specs.Prelude.{◌≡◌, ◌∷◌, [], ℤ, Option, IfSome, IfNone};
ghost use Rattle.gate_model.specs.Pairs.{between_colons};
ghost use Rattle.clap.specs.Walk.{Text};
ghost use Rattle.model_params.specs.Quantities.{IsInRangeOf, level_depth};
ghost use Rattle.command_words.specs.declared.settings.DepthRange.{DepthRange};
ghost use Rattle.command_words.specs.Options.{IsReadWhereGiven, borrowed_text};
ghost use Rattle.command_words.specs.Depths.{AreDepths, IsDepth};

use crate::DepthRange;
use model_params::LEVEL_DEPTH;
use sidb_units::laws::one_reading;
use sidb_units::read_dec;
use text_rows::cut;

/// What stands before the one colon of a text, and what behind it.
#[derive(Clone, Copy)]
struct ColonHalves<'a> {
    first: &'a [u8],
    second: &'a [u8],
}

/// What stands before the one colon of a text and behind it, or `None` where there is not one.
fn ends_in(text: &[u8]) -> Option<ColonHalves<'_>>
    ensures found { IfSome result (λ ends. between_colons text.now
        ≡ ends.first.now ∷ ends.second.now ∷ []) }
    ensures none { IfNone result ((x y : Text) → between_colons text.now ≡ x ∷ y ∷ [] → ⊥) }
{
    let (first, second) = cut(text, b':')?;
    match cut(second, b':') {
        None => Some(ColonHalves { first, second }),
        Some(_) => None,
    }
}

/// The depth that a word is.
fn depth_in(word: &[u8]) -> Option<i64>
    ensures found { IfSome result (IsDepth word.now) }
    ensures none { IfNone result ((v : ℤ) → IsDepth word.now v → ⊥) }
    ensures within { IfSome result (IsInRangeOf level_depth) }
{
    let range = &LEVEL_DEPTH;
    match read_dec(word, range.places, range.least, range.greatest) {
        Ok(depth) => Some(depth),
        Err(_) => None,
    }
}

/// The range of depths that a text is.
fn depths_in(text: &[u8]) -> Option<DepthRange>
    ensures found { IfSome result (AreDepths text.now) }
    ensures none { IfNone result ((r : DepthRange) → AreDepths text.now r → ⊥) }
{
    one_reading();
    let Some(ends) = ends_in(text) else {
        return None;
    };
    let Some(from) = depth_in(ends.first) else {
        return None;
    };
    let Some(to) = depth_in(ends.second) else {
        return None;
    };
    if to < from {
        return None;
    }
    Some(DepthRange { from, to })
}

/// The range of depths that the text is, or no range where there is no text.
pub fn range_in(given: Option<&str>) -> Option<Option<DepthRange>>
    ensures found { IfSome result (IsReadWhereGiven AreDepths (borrowed_text given.entry)) }
    ensures none { IfNone result ((r : Option DepthRange)
        → IsReadWhereGiven AreDepths (borrowed_text given.entry) r → ⊥) }
{
    match given {
        None => Some(None),
        Some(text) => Some(Some(depths_in(text.as_bytes())?)),
    }
}
