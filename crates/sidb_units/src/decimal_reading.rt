// Whole numbers out of decimal texts.
ghost use Rattle.std.specs.Prelude.{◌≡◌, ◌⊎◌, ℕ, ℤ, pos, ◌+◌, ◌-◌, ◌*◌, ◌^◌, ◌<◌, ◌≤◌, ◌≤ℤ◌, length, slice_index, min, fold, IfOk, IfErr, IfSome, IfNone, Result};
ghost use Rattle.sidb_units.specs.declared.decimal_fault.DecFault.{DecFault};
ghost use Rattle.sidb_units.specs.Numeral.{IsDigit, IsNumeral, point_byte};
ghost use Rattle.sidb_units.specs.Decimal.{HasDecimalFault, IsBadForm, IsReadAs, next_digit};

use crate::DecFault;

/// The number that a decimal text is, times `10 ^ places`: one or more digits, then nothing, or a
/// point and one or more digits.
///
/// **Errors**: of the faults that a text has, the first in the order of `DecFault`.
pub fn read_dec(text: &[u8], places: u32, least: i64, greatest: i64) -> Result<i64, DecFault>
    requires places { places ≤ 12 }
    requires least { pos 0 ≤ℤ least }
    requires order { least ≤ℤ greatest }
    ensures ok { IfOk result (IsReadAs text.now places least greatest) }
    ensures err { IfErr result (HasDecimalFault text.now places least greatest) }
    ensures value { (v : ℤ) → IsReadAs text.now places least greatest v → result ≡ Ok v }
    ensures fault { (e : DecFault) → HasDecimalFault text.now places least greatest e
        → result ≡ Err e }
{
    let value = read_within(text, places, least as u64, greatest as u64)?;
    Ok(value as i64)
}

// The same for a range of numbers without a sign.
fn read_within(text: &[u8], places: u32, least: u64, greatest: u64) -> Result<u64, DecFault>
    requires places { places ≤ 12 }
    ensures ok { IfOk result (λ v. IsReadAs text.now places (pos least) (pos greatest) (pos v)) }
    ensures err { IfErr result (HasDecimalFault text.now places (pos least) (pos greatest)) }
{
    let whole = whole_len(text)?;
    let fraction = &text[(whole + 1).min(text.len())..];
    if fraction.len() > places as usize {
        return Err(DecFault::TooManyPlaces);
    }
    let value = more_digits(more_digits(0, &text[..whole]), fraction);
    in_range(value, places - fraction.len() as u32, least, greatest).ok_or(DecFault::OutOfRange)
}

// The number of digits of the whole part of a numeral.
fn whole_len(text: &[u8]) -> Result<usize, DecFault>
    ensures ok { IfOk result (IsNumeral text.now) }
    ensures err { IfErr result (IsBadForm text.now) }
{
    if text.is_empty() {
        return Err(DecFault::Empty);
    }
    let whole = digits_end(text, 0);
    if whole == 0 {
        return Err(DecFault::BadByte(0));
    }
    if whole == text.len() {
        return Ok(whole);
    }
    if text[whole] != b'.' {
        return Err(DecFault::BadByte(whole));
    }
    let end = digits_end(text, whole + 1);
    if end == whole + 1 || end < text.len() {
        return Err(DecFault::BadByte(end));
    }
    Ok(whole)
}

// The end of the digits that stand from `from` on.
fn digits_end(text: &[u8], from: usize) -> usize
    requires from { from ≤ length text.now }
    ensures from { from ≤ result }
    ensures to { result ≤ length text.now }
    ensures digits { (i : ℕ) → from ≤ i → i < result → IsDigit (slice_index text.now i) }
    ensures stops { result < length text.now → ¬ IsDigit (slice_index text.now result) }
{
    for at in from..text.len() {
        if !text[at].is_ascii_digit() {
            return at;
        }
    }
    text.len()
}

// A number that is beyond every range, whatever power of 10 it is taken by.
const CAP: u128 = 0x1_0000_0000_0000_0000;

// The number with more digits at its end, but at most `CAP`.
fn more_digits(start: u128, digits: &[u8]) -> u128
    requires digits { (i : ℕ) → i < length digits.now → IsDigit (slice_index digits.now i) }
    requires start { start ≤ CAP }
    ensures { result ≡ min (fold next_digit start digits.now) CAP }
{
    let mut value = start;
    for digit in digits {
        value = (value * 10 + u128::from(*digit - b'0')).min(CAP);
    }
    value
}

// The number times a power of 10, where it is in the range.
fn in_range(value: u128, shift: u32, least: u64, greatest: u64) -> Option<u64>
    requires value { value ≤ CAP }
    requires shift { shift ≤ 12 }
    ensures some { IfSome result (λ v. (v ≡ value * 10 ^ shift) × (least ≤ v) × (v ≤ greatest)) }
    ensures none { IfNone result ((value * 10 ^ shift < least) ⊎ (greatest < value * 10 ^ shift)) }
{
    let scaled = value * 10u128.pow(shift);
    if scaled < u128::from(least) || u128::from(greatest) < scaled {
        None
    } else {
        Some(scaled as u64)
    }
}
