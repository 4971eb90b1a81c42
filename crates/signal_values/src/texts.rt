//! Values as texts.
ghost use Rattle.signal_values.specs.Amounts.{number_of};
ghost use Rattle.signal_values.specs.Readings.{value_of};
ghost use Rattle.signal_values.specs.Texts as spec;
ghost use Rattle.std.specs.Prelude.{◌≡◌, ◌++◌, OnOk, decimal};

use crate::exact::Amount;
use crate::readings::Reading;
use itoa::Buffer;
use signal_dictionary::{Kind, Naming, Signal};
use std::alloc::AllocError;

/// How many decimal places a value has.
const PLACES: u32 = 17;

/// Puts so many decimal digits of a number.
#[tactic(auto, unfolding(crate::specs::Texts::digits_of))]
fn put_digits(text: &mut Vec<u8>, count: u32, value: u64) -> Result<(), AllocError>
    ensures { OnOk result (text.new.items ≡ text.old.items ++ spec.digits_of count value) }
{
    if count == 0 {
        return Ok(());
    }
    put_digits(text, count - 1, value / 10)?;
    text.push(b'0' + (value % 10) as u8)?;
    Ok(())
}

/// Puts so many decimal digits of a number, but for the zeros at the end.
#[tactic(auto, unfolding(crate::specs::Texts::fraction))]
fn put_fraction(text: &mut Vec<u8>, count: u32, value: u64) -> Result<(), AllocError>
    ensures { OnOk result (text.new.items ≡ text.old.items ++ spec.fraction count value) }
{
    if count == 0 {
        return Ok(());
    }
    if value % 10 == 0 {
        put_fraction(text, count - 1, value / 10)
    } else {
        put_digits(text, count, value)
    }
}

/// Puts what stands behind the whole number: nothing where that is all.
fn put_part(text: &mut Vec<u8>, part: u64) -> Result<(), AllocError>
    ensures { OnOk result (text.new.items ≡ text.old.items ++ spec.part_text part) }
{
    if part == 0 {
        return Ok(());
    }
    text.push(b'.')?;
    put_fraction(text, PLACES, part)
}

/// Puts a whole number.
fn put_whole(text: &mut Vec<u8>, whole: u128) -> Result<(), AllocError>
    ensures { OnOk result (text.new.items ≡ text.old.items ++ decimal whole) }
{
    let mut buffer = Buffer::new();
    text.extend_from_slice(buffer.format(whole).as_bytes())
}

/// Puts the sign of what is below zero.
fn put_sign(text: &mut Vec<u8>, below: bool) -> Result<(), AllocError>
    ensures { OnOk result (text.new.items ≡ text.old.items ++ spec.sign_text below) }
{
    if below {
        text.push(b'-')?;
    }
    Ok(())
}

/// Puts a number: without a point where none is left behind it, and with no zero at its end.
fn put_amount(text: &mut Vec<u8>, amount: Amount) -> Result<(), AllocError>
    ensures { OnOk result (text.new.items ≡ text.old.items ++ spec.number_text (number_of amount)) }
{
    put_sign(text, amount.is_below_zero())?;
    put_whole(text, amount.whole)?;
    put_part(text, amount.part)
}

/// Puts what a number is called, the number itself where it has no name.
fn put_name(text: &mut Vec<u8>, namings: &[Naming], number: u32) -> Result<(), AllocError>
    ensures { OnOk result (text.new.items ≡ text.old.items ++ spec.name_text namings.now number) }
{
    let Some((naming, rest)) = namings.split_first() else {
        return put_whole(text, u128::from(number));
    };
    if naming.number == number {
        text.extend_from_slice(naming.label.bytes.as_slice())
    } else {
        put_name(text, rest, number)
    }
}

/// Puts the value of a signal of a kind: nothing where there is none, a decimal number, or a name.
pub fn put_reading(text: &mut Vec<u8>, kind: &Kind, reading: Reading) -> Result<(), AllocError>
    ensures { OnOk result (text.new.items ≡ text.old.items ++ spec.value_text kind.now (value_of reading)) }
{
    match reading {
        Reading::Nothing => Ok(()),
        Reading::Number(amount) => put_amount(text, amount),
        Reading::Named(number) => match kind {
            Kind::Names(namings) => put_name(text, namings.as_slice(), number),
            _ => put_whole(text, u128::from(number)),
        },
    }
}

/// Puts a unit behind a space, nothing where there is none.
fn put_unit(text: &mut Vec<u8>, unit: &[u8]) -> Result<(), AllocError>
    ensures { OnOk result (text.new.items ≡ text.old.items ++ spec.unit_text unit.now) }
{
    if unit.is_empty() {
        return Ok(());
    }
    text.push(b' ')?;
    text.extend_from_slice(unit)
}

/// Puts a signal with its value and its unit, as ` NAME=VALUE UNIT`.
pub fn put_told(text: &mut Vec<u8>, signal: &Signal, reading: Reading) -> Result<(), AllocError>
    ensures { OnOk result (text.new.items ≡ text.old.items ++ spec.told_text signal.now (value_of reading)) }
{
    text.push(b' ')?;
    text.extend_from_slice(signal.name.bytes.as_slice())?;
    text.push(b'=')?;
    put_reading(text, &signal.kind, reading)?;
    put_unit(text, signal.unit.bytes.as_slice())
}
