ghost use Rattle.std.specs.Prelude.{◌≡◌, ◌≤◌, ◌*◌, ◌^◌, neg_ℤ, ◌+ℤ◌, ◌*ℤ◌, pos, unsigned_abs};
ghost use Rattle.charge_model.specs.Prefixes.{lesser, greater};

/// An energy or a potential, in 10^-12 V.
#[derive(Clone, Copy)]
pub struct Amount {
    pub value: i64,
}

impl Amount {
    /// Zero.
    pub fn zero() -> Amount
        ensures { result.value ≡ pos 0 }
    {
        Amount { value: 0 }
    }
}

/// The sum of two.
pub fn added(a: Amount, b: Amount) -> Amount
    requires a { unsigned_abs a.value ≤ 10 ^ 18 }
    requires b { unsigned_abs b.value ≤ 10 ^ 18 }
    ensures { result.value ≡ a.value +ℤ b.value }
{
    Amount {
        value: a.value + b.value,
    }
}

/// The negative.
pub fn negated(a: Amount) -> Amount
    requires { unsigned_abs a.value ≤ 10 ^ 18 }
    ensures { result.value ≡ neg_ℤ a.value }
{
    Amount { value: -a.value }
}

/// A number of at most 3 times an amount.
pub fn scaled(number: i64, a: Amount) -> Amount
    requires number { unsigned_abs number ≤ 3 }
    requires a { unsigned_abs a.value ≤ 10 ^ 13 }
    ensures value { result.value ≡ number *ℤ a.value }
    ensures small { unsigned_abs result.value ≤ unsigned_abs number * 10 ^ 13 }
{
    Amount {
        value: number * a.value,
    }
}

/// The lesser of two.
pub fn lesser(a: Amount, b: Amount) -> Amount
    ensures { result.value ≡ lesser a.value b.value }
{
    if a.value <= b.value { a } else { b }
}

/// The greater of two.
pub fn greater(a: Amount, b: Amount) -> Amount
    ensures { result.value ≡ greater a.value b.value }
{
    if a.value <= b.value { b } else { a }
}
