ghost use Rattle.std.specs.Prelude.{◌≡◌, ◌≢◌, ◌∷◌, ◌<◌, ◌↔◌, ℕ, [], List, length, slice_index, string_bytes, IfOk, Ok, Err, IfNone, IfSome};
ghost use Rattle.charge_model.specs.declared.charge.Charge.{Charge};
ghost use Rattle.charge_state.specs.declared.TheConstants.{POINT};
ghost use Rattle.charge_state.specs.declared.text.ChargeFault.TheVariants.{BadByte, TooLong};
ghost use Rattle.charge_state.specs.Text.{byte_of, charges_text, BreaksTextAt, IsTooLongText, IsReading, ReadsCharges};

use crate::charges::Charges;
use crate::{MINUS, PLUS, POINT, ZERO};
use charge_model::{Charge, MAX_SITES};
use sidb_units::Memory;
use std::alloc::Global;
use thiserror::Error;

/// Why a text is not that of a list of at most 64 charges.
#[derive(Clone, Copy, PartialEq, Eq, Debug, Error)]
pub enum ChargeFault {
    /// The first byte that breaks the form, or the length of a text that ends too early.
    #[error("byte {0} is no charge")]
    BadByte(usize),
    /// More than 64 charges.
    #[error("more than {MAX_SITES} charges")]
    TooLong,
}

/// The charge of a byte.
fn charge_of(byte: u8) -> Option<Charge>
    ensures found { IfSome result (λ charge. byte_of charge ≡ byte) }
    ensures none { IfNone result ((charge : Charge) → byte_of charge ≡ byte → ⊥) }
{
    match byte {
        MINUS => Some(Charge::Neg),
        ZERO => Some(Charge::Neutral),
        PLUS => Some(Charge::Pos),
        _ => None,
    }
}

/// Reads a text that is not empty and does not begin with a point: one byte a charge.
fn read_signs(text: &[u8]) -> Result<Charges, ChargeFault>
    requires some { 0 < length text.now }
    requires no_point { slice_index text.now 0 ≢ POINT }
    ensures { IsReading text.now result }
{
    let mut charges = Charges::empty();
    for i in 0..text.len() {
        let Some(charge) = charge_of(text[i]) else {
            return Err(ChargeFault::BadByte(i));
        };
        if charges.len() < MAX_SITES {
            charges.push(charge);
        }
    }
    if text.len() > MAX_SITES {
        return Err(ChargeFault::TooLong);
    }
    Ok(charges)
}

/// Reads a charge list: `-`, `0` or `+` for each site, site 0 first, and `.` alone for no site.
pub fn read_charges(text: &[u8]) -> Result<Charges, ChargeFault>
    ensures read { (c : List Charge) → (result ≡ Ok c) ↔ ReadsCharges text.now c }
    ensures bad_byte { (at : ℕ) → (result ≡ Err (BadByte at)) ↔ BreaksTextAt text.now at }
    ensures too_long { (result ≡ Err TooLong) ↔ IsTooLongText text.now }
{
    if text.is_empty() {
        return Err(ChargeFault::BadByte(0));
    }
    if text[0] != POINT {
        return read_signs(text);
    }
    if text.len() > 1 {
        return Err(ChargeFault::BadByte(1));
    }
    Ok(Charges::empty())
}

/// The text of one charge.
fn sign_of(charge: Charge) -> &'static str
    ensures { result.now ≡ byte_of charge ∷ [] }
{
    match charge {
        Charge::Neg => "-",
        Charge::Neutral => "0",
        Charge::Pos => "+",
    }
}

/// The text that `read_charges` reads as this list.
pub fn print_charges(alloc: Global, charges: &Charges) -> Result<String, Memory>
    ensures text { IfOk result (λ text. string_bytes text ≡ charges_text charges.now) }
{
    let mut text = String::new(alloc);
    if charges.len() == 0 {
        text.push_str(".")?;
        return Ok(text);
    }
    for i in 0..charges.len() {
        text.push_str(sign_of(charges.at(i)))?;
    }
    Ok(text)
}
