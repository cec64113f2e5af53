ghost use Rattle.std.specs.Prelude.{◌≡◌, ◌<◌, ◌↔◌, All, IsTrue, MatchBool, length};
ghost use Rattle.charge_model.specs.declared.mark.Mark.TheVariants.{Certain};
ghost use Rattle.charge_model.specs.GroundList.{Entry};
ghost use Rattle.bdl_pairs.specs.Readings.{AreWithin, IsRight, Reads};
ghost use Rattle.bdl_pairs.specs.Verdict.{HasValid, IsMarkedValid, IsFailing, IsVerdict};

use crate::read_bit;
use charge_model::{Deciding, Mark};
use charge_state::Charges;
use gate_model::PairOf;
use ground_entries::GroundList;

/// What the ground list of a pattern says of the wanted bit.
#[derive(Clone, Copy, PartialEq, Eq, Debug)]
pub enum PatternVerdict {
    /// Each entry reads the bit, and one is certainly valid.
    Works,
    /// A certain entry does not read the bit.
    Fails,
    /// Neither.
    Undecided,
}

/// Whether a pair reads the wanted bit.
fn reads(charges: &Charges, pair: PairOf, wanted: bool) -> bool
    requires { (pair.a < length charges.now) × (pair.b < length charges.now) }
    ensures { MatchBool result (Reads charges.now pair wanted) (Reads charges.now pair wanted → ⊥) }
{
    read_bit(charges, pair) == Some(wanted)
}

/// Whether every output pair reads the wanted bit.
#[tactic(auto, unfolding(crate::specs::Readings::IsRight, crate::specs::Readings::AreWithin))]
fn is_right(charges: &Charges, outputs: &[PairOf], wanted: bool) -> bool
    requires { AreWithin outputs.now charges.now }
    ensures { MatchBool result (IsRight outputs.now wanted charges.now)
        (IsRight outputs.now wanted charges.now → ⊥) }
{
    for pair in outputs {
        if !reads(charges, *pair, wanted) {
            return false;
        }
    }
    true
}

/// Whether the mark is that of a certainly valid entry.
fn is_marked_valid(mark: Mark) -> bool
    ensures { IsTrue result ↔ IsMarkedValid mark }
{
    match mark {
        Mark::Certain => true,
        Mark::Unresolved(Deciding::Rival(_, _)) => true,
        Mark::Unresolved(_) => false,
    }
}

/// Whether the mark is `Certain`.
fn is_certain(mark: Mark) -> bool
    ensures { IsTrue result ↔ (mark ≡ Certain) }
{
    matches!(mark, Mark::Certain)
}

/// Whether each entry is right.
fn all_are_right(list: &GroundList, outputs: &[PairOf], wanted: bool) -> bool
    requires { All (λ e. AreWithin outputs.now e.charges) list.now }
    ensures { MatchBool result (All (λ e. IsRight outputs.now wanted e.charges) list.now)
        (All (λ e. IsRight outputs.now wanted e.charges) list.now → ⊥) }
{
    for j in 0..list.len() {
        if !is_right(&list.entry(j).charges, outputs, wanted) {
            return false;
        }
    }
    true
}

/// Whether some entry is marked as certainly valid.
fn some_is_valid(list: &GroundList) -> bool
    ensures { MatchBool result (HasValid list.now) (HasValid list.now → ⊥) }
{
    for j in 0..list.len() {
        if is_marked_valid(list.entry(j).mark) {
            return true;
        }
    }
    false
}

/// Whether some certain entry is not right.
fn some_certain_is_wrong(list: &GroundList, outputs: &[PairOf], wanted: bool) -> bool
    requires { All (λ e. AreWithin outputs.now e.charges) list.now }
    ensures { MatchBool result (IsFailing outputs.now wanted list.now)
        (IsFailing outputs.now wanted list.now → ⊥) }
{
    for j in 0..list.len() {
        let entry = list.entry(j);
        if is_certain(entry.mark) && !is_right(&entry.charges, outputs, wanted) {
            return true;
        }
    }
    false
}

/// What a ground list says of a pattern, where each output pair is to read this bit.
pub fn verdict(list: &GroundList, outputs: &[PairOf], wanted: bool) -> PatternVerdict
    requires { All (λ e. AreWithin outputs.now e.charges) list.now }
    ensures value { IsVerdict outputs.now wanted list.now result }
{
    if some_certain_is_wrong(list, outputs, wanted) {
        return PatternVerdict::Fails;
    }
    if all_are_right(list, outputs, wanted) && some_is_valid(list) {
        return PatternVerdict::Works;
    }
    PatternVerdict::Undecided
}
