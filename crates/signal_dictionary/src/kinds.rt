//! What the bits of a signal spell, and its unit.
ghost use Rattle.signal_dictionary.specs.Kinds as spec;
ghost use Rattle.signal_dictionary.specs.declared.signals.Kind.TheVariants.{Unsigned, Signed, Decimals};
ghost use Rattle.std.specs.Option.{option_copied};
ghost use Rattle.std.specs.Prelude.{◌≡◌};

use crate::decimals::{read_offset, read_scale};
use crate::namings::read_namings;
use crate::signals::{Kind, Scaling};
use crate::texts::{Unit, no_unit, read_unit, unit_from};
use judge_rules::{RuleFault, both};
use text_lines::Words;

/// Scale, offset and unit, and no more.
fn read_scaling(words: &mut Words<'_>) -> Result<(Scaling, Unit), RuleFault>
    ensures { result ≡ spec.scaling_in words.old }
{
    let scale = read_scale(words);
    let offset = read_offset(words);
    let unit = read_unit(words);
    let ((scale, offset), unit) = both(both(scale, offset), unit)?;
    Ok((Scaling { scale, offset }, unit))
}

/// The unit that begins with this word, if there is one.
fn read_unit_from(next: Option<&[u8]>, words: &mut Words<'_>) -> Result<Unit, RuleFault>
    ensures { result ≡ spec.unit_by (option_copied next.entry) words.old }
{
    match next {
        Some(first) => unit_from(first, words),
        None => Ok(no_unit()),
    }
}

/// Names of numbers and a unit, and no more.
fn read_names(words: &mut Words<'_>) -> Result<(Kind, Unit), RuleFault>
    ensures { result ≡ spec.names_in words.old }
{
    let named = read_namings(words);
    let unit = read_unit_from(named.next, words);
    let (namings, unit) = both(named.namings, unit)?;
    Ok((Kind::Names(namings), unit))
}

/// An unsigned number and its unit, and no more.
fn read_unsigned(words: &mut Words<'_>) -> Result<(Kind, Unit), RuleFault>
    ensures { result ≡ spec.scaled Unsigned words.old }
{
    let (scaling, unit) = read_scaling(words)?;
    Ok((Kind::Unsigned(scaling), unit))
}

/// A number in two's complement and its unit, and no more.
fn read_signed(words: &mut Words<'_>) -> Result<(Kind, Unit), RuleFault>
    ensures { result ≡ spec.scaled Signed words.old }
{
    let (scaling, unit) = read_scaling(words)?;
    Ok((Kind::Signed(scaling), unit))
}

/// A number in decimal digits and its unit, and no more.
fn read_decimals(words: &mut Words<'_>) -> Result<(Kind, Unit), RuleFault>
    ensures { result ≡ spec.scaled Decimals words.old }
{
    let (scaling, unit) = read_scaling(words)?;
    Ok((Kind::Decimals(scaling), unit))
}

/// The kind of this name and the unit that the words spell, and no more.
fn read_named(name: &[u8], words: &mut Words<'_>) -> Result<(Kind, Unit), RuleFault>
    ensures { result ≡ spec.kind_named name.now words.old }
{
    if name == b"unsigned".as_slice() {
        read_unsigned(words)
    } else if name == b"signed".as_slice() {
        read_signed(words)
    } else if name == b"bcd".as_slice() {
        read_decimals(words)
    } else if name == b"names".as_slice() {
        read_names(words)
    } else {
        Err(RuleFault::Word)
    }
}

/// The kind and the unit that the words spell, and no more.
pub(crate) fn read_kind(words: &mut Words<'_>) -> Result<(Kind, Unit), RuleFault>
    ensures { result ≡ spec.kind_in words.old }
{
    match words.next() {
        Some(name) => read_named(name, words),
        None => Err(RuleFault::Word),
    }
}
