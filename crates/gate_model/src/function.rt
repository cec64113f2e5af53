ghost use Rattle.std.specs.Prelude.{◌≡◌, ◌==◌, ◌<◌, ◌≤◌, ◌/◌, ◌%◌, IfSome, IfNone, Some, length, slice_get};
ghost use Rattle.gate_model.specs.declared.function.Function.{Function};
ghost use Rattle.gate_model.specs.Functions.{IsFunctionNamed, name_by, function_names, digit, number, table_of};

/// A function of one or two bits: how many, and its values by pattern. With one bit the last two
/// values are false.
#[derive(Clone, Copy, PartialEq, Eq, Debug)]
pub struct Function {
    pub inputs: u64,
    pub table: [bool; 4],
}

/// How many functions of so many bits have a name.
fn count_of(inputs: u64) -> u64
    ensures { result ≡ length (function_names inputs) }
{
    match inputs {
        1 => 4,
        2 => 16,
        _ => 0,
    }
}

/// The name of the function of one bit with this number.
fn name_of_one(number: u64) -> &'static str
    requires { number < 4 }
    ensures { slice_get (function_names 1) number ≡ Some result.now }
{
    ["zero", "buf", "not", "one"][number as usize]
}

/// The name of the function of two bits with this number.
fn name_of_two(number: u64) -> &'static str
    requires { number < 16 }
    ensures { slice_get (function_names 2) number ≡ Some result.now }
{
    [
        "zero", "and", "gt", "a", "lt", "b", "xor", "or", "nor", "xnor", "notb", "ge", "nota",
        "le", "nand", "one",
    ][number as usize]
}

/// The name of the function with this number.
fn name_at(inputs: u64, number: u64) -> &'static str
    requires { number < length (function_names inputs) }
    ensures { slice_get (function_names inputs) number ≡ Some result.now }
{
    if inputs == 1 {
        name_of_one(number)
    } else {
        name_of_two(number)
    }
}

/// Whether the binary digit of a number that counts `unit` is 1.
fn has_digit(number: u64, unit: u64) -> bool
    requires { 0 < unit }
    ensures { result ≡ (number / unit % 2 == 1) }
{
    number / unit % 2 == 1
}

/// The function of one bit, or of two, with this number.
fn numbered(inputs: u64, number: u64) -> Function
    ensures inputs { result.inputs ≡ inputs }
    ensures values { result.table ≡ table_of inputs number }
{
    let [eights, fours] = [has_digit(number, 8), has_digit(number, 4)];
    let [twos, ones] = [has_digit(number, 2), has_digit(number, 1)];
    let table = if inputs == 1 {
        [twos, ones, false, false]
    } else {
        [eights, fours, twos, ones]
    };
    Function { inputs, table }
}

/// The function of so many bits that the name stands for, or `None` where there is none.
pub fn function_named(name: &str, inputs: u64) -> Option<Function>
    ensures found { IfSome result (IsFunctionNamed name.now inputs) }
    ensures none { IfNone result ((f : Function) → IsFunctionNamed name.now inputs f → ⊥) }
{
    for number in 0..count_of(inputs) {
        if name_at(inputs, number) == name {
            return Some(numbered(inputs, number));
        }
    }
    None
}

/// What the value of a function for one pattern counts in its number.
fn digit_of(function: &Function, pattern: usize) -> u64
    requires { pattern < 4 }
    ensures value { result ≡ digit function.now pattern }
    ensures within { result ≤ 1 }
{
    u64::from(function.table[pattern])
}

/// The number of a function: its values by pattern, read as binary digits.
fn number_of(function: &Function) -> u64
    ensures value { result ≡ number function.now }
    ensures within { function.now.inputs ≡ 1 → result < 4 }
    ensures fits { result < 16 }
{
    let [first, second] = [digit_of(function, 0), digit_of(function, 1)];
    if function.inputs == 1 {
        return 2 * first + second;
    }
    8 * first + 4 * second + 2 * digit_of(function, 2) + digit_of(function, 3)
}

/// The name of a function of one or two bits, and nothing for any other number of bits.
pub fn name_of(function: &Function) -> &'static str
    ensures { result.now ≡ name_by function.now }
{
    if function.inputs == 1 || function.inputs == 2 {
        return name_at(function.inputs, number_of(function));
    }
    ""
}
