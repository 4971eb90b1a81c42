//! What was compared, as lines.
ghost use Rattle.bench_compare.specs.Compared as spec;
ghost use Rattle.std.specs.Prelude.{◌≡◌};

use crate::differences::{Compared, Difference, Part};
use bench_dump::put_words;
use ch11_layout::View;
use mil_word::Line;
use std::alloc::Global;
use std::io::Write;
use text_lines::WriteFault;

/// The letter of a line.
fn letter(line: Line) -> &'static str {
    match line {
        Line::A => "A",
        Line::B => "B",
    }
}

/// Writes words as hexadecimal digits with spaces between, `-` where there are none.
fn write_words<W: Write>(alloc: Global, words: &[u8], out: &mut W) -> Result<(), WriteFault> {
    let mut text = Vec::new(alloc);
    put_words(&mut text, words)?;
    match text.as_slice().split_first() {
        Some((_, digits)) => out.write_all(digits)?,
        None => out.write_all(b"-")?,
    }
    Ok(())
}

/// Writes how far a stamp is from the first of its channel.
fn write_distance<W: Write>(stamp: u64, first: u64, out: &mut W) -> Result<(), WriteFault> {
    if stamp < first {
        write!(out, "-{}", first - stamp)?;
    } else {
        write!(out, "{}", stamp - first)?;
    }
    Ok(())
}

/// What a part is called.
fn name_of(part: Part) -> &'static str {
    match part {
        Part::Stamp => "stamp: ",
        Part::Line => "line: ",
        Part::Words => "words: ",
        Part::Block => "block: ",
        Part::Gaps => "gaps: ",
        Part::MissingInFirst => "missing in A",
        Part::MissingInSecond => "missing in B",
    }
}

/// Writes what a message has in a part.
fn write_value<W: Write>(
    alloc: Global,
    part: Part,
    view: &View<'_>,
    first: u64,
    out: &mut W,
) -> Result<(), WriteFault> {
    match part {
        Part::Stamp => write_distance(view.stamp(), first, out)?,
        Part::Line => out.write_all(letter(view.line()).as_bytes())?,
        Part::Words => write_words(alloc, view.bytes(), out)?,
        Part::Block => write!(out, "{:04X}", view.block())?,
        Part::Gaps => write!(out, "{:04X}", view.gaps())?,
        Part::MissingInFirst | Part::MissingInSecond => {}
    }
    Ok(())
}

/// Writes in what a message differs, and what each recording has there.
pub fn write_part<W: Write>(
    alloc: Global,
    difference: &Difference,
    out: &mut W,
) -> Result<(), WriteFault> {
    let (part, origins) = (difference.part, difference.origins);
    out.write_all(name_of(part).as_bytes())?;
    if let (Some(first), Some(second)) = (&difference.first, &difference.second) {
        write_value(alloc, part, &first.view(), origins.first, out)?;
        out.write_all(b" and ")?;
        write_value(alloc, part, &second.view(), origins.second, out)?;
    }
    Ok(())
}

/// Writes the lines of a channel: how many messages each recording has, and behind it, where they differ, the first
/// that does and in what.
pub fn write_channel<W: Write>(
    alloc: Global,
    compared: &Compared,
    out: &mut W,
) -> Result<(), WriteFault> {
    let (channel, first, second) = (compared.channel, compared.first, compared.second);
    write!(out, "channel {channel} messages {first} {second}\n")?;
    if let Some(difference) = &compared.difference {
        let number = difference.number;
        write!(out, "channel {channel} differs at {number} ")?;
        write_part(alloc, difference, out)?;
        out.write_all(b"\n")?;
    }
    Ok(())
}

/// How many channels differ.
pub fn differing(compared: &[Compared]) -> usize
    ensures { result ≡ spec.differing compared.now }
{
    compared.iter().filter(|c| c.difference.is_some()).count()
}

/// Writes the last line: how many channels there are and how many differ.
pub fn write_totals<W: Write>(compared: &[Compared], out: &mut W) -> Result<(), WriteFault> {
    let (channels, differ) = (compared.len(), differing(compared));
    write!(out, "channels {channels} differ {differ}\n")?;
    Ok(())
}

/// Writes what was compared as lines: those of each channel, and the last.
pub fn write_comparison<W: Write>(
    alloc: Global,
    compared: &[Compared],
    out: &mut W,
) -> Result<(), WriteFault> {
    'channels: for channel in compared {
        write_channel(alloc, channel, out)?;
    }
    write_totals(compared, out)
}
