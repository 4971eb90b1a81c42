//! What a rule asks of a message.
ghost use Rattle.bench_judge.specs.Told as spec;
ghost use Rattle.std.specs.List.{flat_map};
ghost use Rattle.std.specs.Prelude.{◌≡◌, ◌++◌, OnOk};

use crate::digits::{put_digits, put_word};
use crate::numbers::put_number;
use judge_rules::{Bounds, Check, Datum, WordRange};
use std::alloc::AllocError;

/// Appends a least and a greatest number behind a space.
#[tactic(auto, unfolding(crate::specs::Told::bounds_told))]
fn put_bounds(text: &mut Vec<u8>, bounds: &Bounds) -> Result<(), AllocError>
    ensures { OnOk result (text.new.items ≡ text.old.items ++ spec.bounds_told bounds.now) }
{
    put_number(text, b" ", u64::from(bounds.low))?;
    put_number(text, b" to ", u64::from(bounds.high))
}

/// Appends a least and a greatest word, each behind a space.
#[tactic(auto, unfolding(crate::specs::Told::range_told))]
fn put_range(text: &mut Vec<u8>, range: &WordRange) -> Result<(), AllocError>
    ensures { OnOk result (text.new.items ≡ text.old.items ++ spec.range_told range.now) }
{
    put_word(text, range.low)?;
    text.extend_from_slice(b" to")?;
    put_word(text, range.high)
}

/// Appends the value of a status word, and its mask where bits are left out.
fn put_status(text: &mut Vec<u8>, datum: &Datum) -> Result<(), AllocError>
    ensures { OnOk result (text.new.items ≡ text.old.items ++ spec.status_told datum.now) }
{
    put_word(text, datum.value)?;
    if datum.mask == 0xFFFF {
        return Ok(());
    }
    text.extend_from_slice(b" mask")?;
    put_word(text, datum.mask)
}

/// Appends a data word as a rule has it.
fn put_datum(text: &mut Vec<u8>, datum: &Datum) -> Result<(), AllocError>
    ensures { OnOk result (text.new.items ≡ text.old.items ++ spec.datum_told datum.now) }
{
    if datum.mask == 0 {
        return text.extend_from_slice(b" ....");
    }
    put_word(text, datum.value)?;
    if datum.mask == 0xFFFF {
        return Ok(());
    }
    text.extend_from_slice(b"/")?;
    put_digits(text, datum.mask)
}

/// Appends data words as a rule has them.
fn put_each(text: &mut Vec<u8>, wanted: &[Datum]) -> Result<(), AllocError>
    ensures { OnOk result (text.new.items ≡ text.old.items ++ flat_map spec.datum_told wanted.now) }
{
    let mut rest = wanted;
    'words: while let Some((datum, others)) = rest.split_first() {
        put_datum(text, datum)?;
        rest = others;
    }
    Ok(())
}

/// Appends data words as a rule has them, or that there are to be none.
fn put_data(text: &mut Vec<u8>, wanted: &[Datum]) -> Result<(), AllocError>
    ensures { OnOk result (text.new.items ≡ text.old.items ++ spec.data_told wanted.now) }
{
    match wanted.split_first() {
        None => text.extend_from_slice(b" none"),
        Some(_) => put_each(text, wanted),
    }
}

/// Appends what a check asks for, behind a space.
pub(crate) fn put_expected(text: &mut Vec<u8>, check: &Check) -> Result<(), AllocError>
    ensures { OnOk result (text.new.items ≡ text.old.items ++ spec.was_expected check.now) }
{
    match check {
        Check::Sound => text.extend_from_slice(b" ok"),
        Check::Failed => text.extend_from_slice(b" fail"),
        Check::Clean => text.extend_from_slice(b" clean"),
        Check::Status(datum) => put_status(text, datum),
        Check::Data(wanted) => put_data(text, wanted.as_slice()),
        Check::Response(bounds) | Check::Period(bounds) | Check::Count(bounds) => {
            put_bounds(text, bounds)
        }
        Check::CountOf { bounds, .. } => put_bounds(text, bounds),
        Check::DataWord(range) | Check::DataStep(range) => put_range(text, range),
        Check::Whole => text.extend_from_slice(b" whole"),
    }
}
