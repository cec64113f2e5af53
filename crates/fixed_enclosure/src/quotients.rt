ghost use Rattle.std.specs.Prelude.{◌≡◌, ◌+◌, ◌*◌, ◌/◌, ◌^◌, ◌<◌, ◌≤◌};
ghost use Rattle.std.specs.Int.{div_ceil};

/// The floor of `a * b / d`.
pub fn mul_div_down(a: u128, b: u128, d: u128) -> u128
    requires divisor { 1 ≤ d }
    requires fits { a * b + d < 2 ^ 128 }
    ensures value { result ≡ a * b / d }
    ensures below { result * d ≤ a * b }
    ensures above { a * b < (result + 1) * d }
{
    a * b / d
}

/// The ceiling of `a * b / d`.
pub fn mul_div_up(a: u128, b: u128, d: u128) -> u128
    requires divisor { 1 ≤ d }
    requires fits { a * b + d < 2 ^ 128 }
    ensures value { result ≡ div_ceil (a * b) d }
    ensures above { a * b ≤ result * d }
    ensures below { result * d < a * b + d }
{
    (a * b).div_ceil(d)
}
