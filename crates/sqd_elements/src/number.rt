// The whole numbers that bytes are.
ghost use Rattle.std.specs.Prelude.{◌≡◌, ◌<◌, IsTrue, length};
ghost use Rattle.std.specs.Char.{is_ascii_digit};
ghost use Rattle.std.specs.List.{list_all};
ghost use Rattle.std.specs.Str.Parse.{digits_value};
ghost use Rattle.sqd_elements.specs.Numbers.{magnitude_in, number_in};

/// The most digits of a number.
const MAX_DIGITS: usize = 9;

/// The number of a few digits.
fn value_of(digits: &[u8]) -> u32
    requires digits { IsTrue (list_all is_ascii_digit digits.now) }
    requires few { length digits.now < 10 }
    ensures { result ≡ digits_value 10 digits.now }
{
    let mut value = 0;
    for digit in digits {
        value = value * 10 + u32::from(*digit - b'0');
    }
    value
}

/// Whether all bytes are digits.
fn are_digits(bytes: &[u8]) -> bool
    ensures { result ≡ list_all is_ascii_digit bytes.now }
{
    bytes.iter().all(|byte| byte.is_ascii_digit())
}

/// The number that one to nine digits are.
fn magnitude_of(digits: &[u8]) -> Option<u32>
    ensures { result ≡ magnitude_in digits.now }
{
    if digits.is_empty() || digits.len() > MAX_DIGITS {
        return None;
    }
    if !are_digits(digits) {
        return None;
    }
    Some(value_of(digits))
}

/// The whole number that bytes are: an optional `-` and one to nine digits.
pub fn number_of(bytes: &[u8]) -> Option<i64>
    ensures { result ≡ number_in bytes.now }
{
    match bytes {
        [] => None,
        [b'-', digits @ ..] => {
            let magnitude = magnitude_of(digits)?;
            Some(-i64::from(magnitude))
        }
        [_, ..] => {
            let magnitude = magnitude_of(bytes)?;
            Some(i64::from(magnitude))
        }
    }
}
