// Decimal texts of whole numbers.
ghost use Rattle.std.specs.Prelude.{◌≡◌, ℤ, pos, ◌≤◌, ◌≤ℤ◌, ◌++◌, IfOk, OnOk, string_bytes, unsigned_abs};
ghost use Rattle.sidb_units.specs.Decimal.{decimal_text, last_digits};

use crate::Memory;
use std::alloc::Global;

/// The text of `value` over `10 ^ places`: the whole part, and for places above 0 a point and
/// exactly `places` digits.
pub fn print_dec(alloc: Global, value: i64, places: u32) -> Result<String, Memory>
    requires value { pos 0 ≤ℤ value }
    requires places { places ≤ 12 }
    ensures { IfOk result (λ s. string_bytes s ≡ decimal_text places (unsigned_abs value)) }
{
    let value = value as u64;
    if places == 0 {
        return Ok(value.to_string(alloc)?);
    }
    let whole = value / 10u64.pow(places);
    let mut text = format!(in alloc; "{whole}.")?;
    push_digits(&mut text, value, places)?;
    Ok(text)
}

// Adds the last `count` digits of `value`.
fn push_digits(text: &mut String, value: u64, count: u32) -> Result<(), Memory>
    requires { count ≤ 12 }
    ensures { OnOk result
        (string_bytes text.new ≡ string_bytes text.old ++ last_digits count value) }
{
    let mut left = count;
    while left > 0 {
        left -= 1;
        let digit = (value / 10u64.pow(left) % 10) as u8;
        text.push(char::from(b'0' + digit))?;
    }
    Ok(())
}
