ghost use Rattle.std.specs.Prelude.{◌≡◌, ◌<◌, ◌++◌, ◌∷◌, [], OnOk, OnErr, Some, length, slice_get};

use sidb_units::Memory;
use std::alloc::Global;
use std::marker::Model;

/// Two sites of a layout that stand for a bit.
#[derive(Clone, Copy, PartialEq, Eq, Debug)]
pub struct PairOf {
    pub a: usize,
    pub b: usize,
}

/// A list of pairs.
#[derive(Drop)]
pub struct PairList {
    pairs: Vec<PairOf>,
}

impl Model for PairList {
    ghost use Rattle.std.specs.Prelude.{List};
    ghost use Rattle.gate_model.specs.declared.pairs.PairOf.{PairOf};

    ghost Value = { List PairOf };

    ghost view = { λ p. p.pairs.items };
}

impl PairList {
    /// The empty list.
    pub fn new(alloc: Global) -> PairList
        ensures { result ≡ [] }
    {
        PairList {
            pairs: Vec::new(alloc),
        }
    }

    /// Adds a pair at the end.
    pub fn push(&mut self, pair: PairOf) -> Result<(), Memory>
        ensures ok { OnOk result (self.new ≡ self.old ++ pair ∷ []) }
        ensures err { OnErr result (self.new ≡ self.old) }
    {
        self.pairs.push(pair)?;
        Ok(())
    }

    /// How many pairs there are.
    pub fn len(&self) -> usize
        ensures { result ≡ length self.now }
    {
        self.pairs.len()
    }

    /// Pair k.
    pub fn at(&self, k: usize) -> PairOf
        requires { k < length self.now }
        ensures { slice_get self.now k ≡ Some result }
    {
        self.pairs[k]
    }

    /// The pairs.
    pub fn as_slice(&self) -> &[PairOf]
        ensures { result.now ≡ self.now }
    {
        self.pairs.as_slice()
    }
}
