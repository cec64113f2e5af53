ghost use Rattle.std.specs.Prelude.{◌≡◌, ◌≢◌, ◌<◌, ◌≤◌, ◌↔◌, ◌++◌, ℕ, IfOk, IfSome, IfNone, IsTrue, MatchBool, OnOk, Some, length, slice_get, slice_index};
ghost use Rattle.gate_model.specs.Logic.{AllDiffer, HaveDistinctPlaces, IsLogic, StandsBefore, logic_of, pattern_count, places_in};

use crate::{Function, PairOf};
use sidb_units::Memory;
use std::alloc::Global;
use std::marker::Model;

/// A gate: 1 or 2 input pairs, 1 to 4 output pairs, and a function of so many inputs. All places
/// are distinct.
#[derive(Drop)]
pub struct LogicSpec {
    inputs: Vec<PairOf>,
    outputs: Vec<PairOf>,
    function: Function,
}

impl Model for LogicSpec {
    ghost use Rattle.gate_model.specs.Logic.{Logic, IsLogic};

    ghost Value = { Logic };

    ghost use Rattle.gate_model.specs.Seen.{seen_gate};

    ghost view = { seen_gate };

    ghost invariant = { λ s. IsLogic (seen_gate s) };
}

impl LogicSpec {
    /// How many input pairs there are.
    pub fn inputs(&self) -> usize
        ensures value { result ≡ length self.now.inputs }
        ensures logic { IsLogic self.now }
    {
        self.inputs.len()
    }

    /// How many output pairs there are.
    pub fn outputs(&self) -> usize
        ensures value { result ≡ length self.now.outputs }
        ensures logic { IsLogic self.now }
    {
        self.outputs.len()
    }

    /// Input pair k.
    pub fn input(&self, k: usize) -> PairOf
        requires { k < length self.now.inputs }
        ensures { slice_get self.now.inputs k ≡ Some result }
    {
        self.inputs[k]
    }

    /// Output pair k.
    pub fn output(&self, k: usize) -> PairOf
        requires { k < length self.now.outputs }
        ensures { slice_get self.now.outputs k ≡ Some result }
    {
        self.outputs[k]
    }

    /// The input pairs.
    pub fn input_pairs(&self) -> &[PairOf]
        ensures { result.now ≡ self.now.inputs }
    {
        self.inputs.as_slice()
    }

    /// The output pairs.
    pub fn output_pairs(&self) -> &[PairOf]
        ensures { result.now ≡ self.now.outputs }
    {
        self.outputs.as_slice()
    }

    /// How many patterns of its inputs there are.
    pub fn patterns(&self) -> u64
        ensures value { result ≡ pattern_count self.now }
        ensures within { result ≤ 4 }
    {
        if self.inputs() == 1 { 2 } else { 4 }
    }

    /// The function.
    pub fn function(&self) -> Function
        ensures { result ≡ self.now.function }
    {
        self.function
    }
}

/// Whether a number stands in the list before this place too.
fn stands_before(places: &[usize], j: usize) -> bool
    requires { j < length places.now }
    ensures { MatchBool result (StandsBefore places.now j) (StandsBefore places.now j → ⊥) }
{
    for i in 0..j {
        if places[i] == places[j] {
            return true;
        }
    }
    false
}

/// Whether no number of the list stands in it twice.
fn all_differ(places: &[usize]) -> bool
    ensures { MatchBool result (AllDiffer places.now) (AllDiffer places.now → ⊥) }
{
    for j in 0..places.len() {
        if stands_before(places, j) {
            return false;
        }
    }
    true
}

/// Adds the places of pairs.
fn push_places(places: &mut Vec<usize>, pairs: &[PairOf]) -> Result<(), Memory>
    ensures { OnOk result (places.new.items ≡ places.old.items ++ places_in pairs.now) }
{
    for k in 0..pairs.len() {
        let pair = pairs[k];
        places.push(pair.a)?;
        places.push(pair.b)?;
    }
    Ok(())
}

/// Whether all places of these pairs are distinct.
pub fn are_distinct(alloc: Global, inputs: &[PairOf], outputs: &[PairOf]) -> Result<bool, Memory>
    ensures { IfOk result (λ distinct. IsTrue distinct
        ↔ HaveDistinctPlaces inputs.now outputs.now) }
{
    let mut places = Vec::new(alloc);
    push_places(&mut places, inputs)?;
    push_places(&mut places, outputs)?;
    Ok(all_differ(places.as_slice()))
}

/// Whether there are as many pairs as a gate of this function has.
fn are_fitting(inputs: usize, outputs: usize, function: &Function) -> bool
    ensures { IsTrue result ↔ ((1 ≤ inputs) × (inputs ≤ 2) × (1 ≤ outputs) × (outputs ≤ 4)
        × (function.now.inputs ≡ inputs)) }
{
    if inputs < 1 || 2 < inputs || outputs < 1 || 4 < outputs {
        return false;
    }
    function.inputs == inputs as u64
}

/// The gate of these pairs and this function, or `None` where they make none.
pub fn logic_spec(
    alloc: Global,
    inputs: &[PairOf],
    outputs: &[PairOf],
    function: Function,
) -> Result<Option<LogicSpec>, Memory>
    ensures found { IfOk result (λ made. IfSome made (λ gate.
        gate ≡ logic_of inputs.now outputs.now function)) }
    ensures none { IfOk result (λ made. IfNone made
        (IsLogic (logic_of inputs.now outputs.now function) → ⊥)) }
{
    if !are_fitting(inputs.len(), outputs.len(), &function) {
        return Ok(None);
    }
    if !are_distinct(alloc, inputs, outputs)? {
        return Ok(None);
    }
    Ok(Some(LogicSpec {
        inputs: Vec::from_slice(alloc, inputs)?,
        outputs: Vec::from_slice(alloc, outputs)?,
        function,
    }))
}
