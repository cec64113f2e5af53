// Pairs out of texts.
ghost use Rattle.std.specs.Prelude.{◌≡◌, ℕ, List, IfOk, IfSome, IfNone, map};
ghost use Rattle.std.specs.List.{AllZip};
ghost use Rattle.gate_model.specs.declared.pairs.PairOf.{PairOf};
ghost use Rattle.gate_model.specs.Pairs.{ArePairs, IsPair, IsPlace};

use crate::parts::{in_two, parts_in};
use crate::{MAX_PAIR_PLACE, PairList, PairOf};
use sidb_units::{Memory, read_dec};
use std::alloc::Global;

/// The place that a word is.
fn place_in(word: &[u8]) -> Option<usize>
    ensures found { IfSome result (IsPlace word.now) }
    ensures none { IfNone result ((place : ℕ) → IsPlace word.now place → ⊥) }
{
    match read_dec(word, 0, 0, MAX_PAIR_PLACE) {
        Ok(place) => Some(place as usize),
        Err(_) => None,
    }
}

/// The pair that a part of a text is.
fn pair_in(part: &[u8]) -> Option<PairOf>
    ensures found { IfSome result (IsPair part.now) }
    ensures none { IfNone result ((pair : PairOf) → IsPair part.now pair → ⊥) }
{
    let Some(words) = in_two(part, b':') else {
        return None;
    };
    let Some(a) = place_in(words.first) else {
        return None;
    };
    let Some(b) = place_in(words.second) else {
        return None;
    };
    Some(PairOf { a, b })
}

/// The pairs that parts of a text are, one a part.
fn pairs_in(alloc: Global, parts: &[&[u8]]) -> Result<Option<PairList>, Memory>
    ensures found { IfOk result (λ read. IfSome read (AllZip IsPair (map (λ w. w.now) parts.now))) }
    ensures none { IfOk result (λ read. IfNone read
        ((pairs : List PairOf) → AllZip IsPair (map (λ w. w.now) parts.now) pairs → ⊥)) }
{
    let mut pairs = PairList::new(alloc);
    for k in 0..parts.len() {
        let Some(pair) = pair_in(parts[k]) else {
            return Ok(None);
        };
        pairs.push(pair)?;
    }
    Ok(Some(pairs))
}

/// The pairs that a text is, at most `most`, or `None` where it is none: `A:B` each, places from 0
/// to 9,999, with a comma between two pairs.
pub fn read_pairs(alloc: Global, text: &[u8], most: usize) -> Result<Option<PairList>, Memory>
    ensures found { IfOk result (λ read. IfSome read (ArePairs most text.now)) }
    ensures none { IfOk result (λ read. IfNone read
        ((pairs : List PairOf) → ArePairs most text.now pairs → ⊥)) }
{
    let parts = parts_in(alloc, text, b',')?;
    let parts = parts.as_slice();
    if parts.len() > most {
        return Ok(None);
    }
    pairs_in(alloc, parts)
}
