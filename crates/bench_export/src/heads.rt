//! What stands in front of the changes of a value change dump.
ghost use Rattle.bench_export.specs.Heads.{part_text};
ghost use Rattle.bench_export.specs.Waves as spec;
ghost use Rattle.bench_export.specs.declared.changes.Change.{Change as Item};
ghost use Rattle.std.specs.Prelude.{◌≡◌, ◌++◌, ◌<◌, List, decimal, length, OnOk};

use crate::lines::Wire;
use crate::survey::is_marked;
use bench_select::CHANNELS;
use itoa::Buffer;
use std::alloc::AllocError;

/// Puts what the kinds of words are, and the unit of time.
fn put_notes(text: &mut Vec<u8>) -> Result<(), AllocError>
    ensures { OnOk result (text.new.items ≡ text.old.items ++ spec.notes) }
{
    text.extend_from_slice(
        b"$comment kind: 1 command word, 2 data word, 3 status word; z: the line is idle; ",
    )?;
    text.extend_from_slice(
        b"error: 1 from the start to the end of a message with an error $end\n",
    )?;
    text.extend_from_slice(b"$timescale 100 ns $end\n")?;
    Ok(())
}

/// Puts a number in decimal digits.
fn put_number(text: &mut Vec<u8>, number: u128) -> Result<(), AllocError>
    ensures { OnOk result (text.new.items ≡ text.old.items ++ decimal number) }
{
    let mut buffer = Buffer::new();
    text.extend_from_slice(buffer.format(number).as_bytes())
}

/// The letter of a line.
fn letter_of(on_b: bool) -> &'static [u8]
    ensures { result.now ≡ spec.letter_text on_b }
{
    if on_b { b"B" } else { b"A" }
}

/// Puts the code of a signal of a line.
fn put_code(text: &mut Vec<u8>, letter: &[u8], wire: Wire) -> Result<(), AllocError>
    ensures { OnOk result (text.new.items ≡ text.old.items ++ spec.signal_code letter.now wire.on_b wire.channel) }
{
    let line = letter_of(wire.on_b);
    text.extend_from_slice(letter)?;
    text.extend_from_slice(line)?;
    put_number(text, u128::from(wire.channel))
}

/// Puts the name of a signal of a line.
#[tactic(auto, unfolding(crate::specs::Waves::signal_name))]
fn put_name(text: &mut Vec<u8>, name: &[u8], wire: Wire) -> Result<(), AllocError>
    ensures { OnOk result (text.new.items ≡ text.old.items ++ spec.signal_name name.now wire.on_b wire.channel) }
{
    text.extend_from_slice(b"ch")?;
    put_number(text, u128::from(wire.channel))?;
    text.extend_from_slice(b"_")?;
    text.extend_from_slice(letter_of(wire.on_b))?;
    text.extend_from_slice(b"_")?;
    text.extend_from_slice(name)
}

/// Puts the declaration of a signal of a line.
#[tactic(auto, unfolding(crate::specs::Waves::declared_text))]
fn put_declared(
    text: &mut Vec<u8>,
    size: &[u8],
    letter: &[u8],
    name: &[u8],
    wire: Wire,
) -> Result<(), AllocError>
    ensures { OnOk result (text.new.items
        ≡ text.old.items ++ spec.declared_text size.now letter.now name.now wire.on_b wire.channel) }
{
    text.extend_from_slice(b"$var ")?;
    text.extend_from_slice(size)?;
    text.extend_from_slice(b" ")?;
    put_code(text, letter, wire)?;
    text.extend_from_slice(b" ")?;
    put_name(text, name, wire)?;
    text.extend_from_slice(b" $end\n")
}

/// Puts the name of a line, in front of its signals.
fn put_opening(text: &mut Vec<u8>, on_b: bool) -> Result<(), AllocError>
    ensures { OnOk result (text.new.items ≡ text.old.items ++ spec.opening_text on_b) }
{
    text.extend_from_slice(b"$scope module ")?;
    text.extend_from_slice(letter_of(on_b))?;
    text.extend_from_slice(b" $end\n")?;
    Ok(())
}

/// Puts the declarations of the signals of a line.
fn put_line(text: &mut Vec<u8>, wire: Wire) -> Result<(), AllocError>
    ensures { OnOk result (text.new.items ≡ text.old.items ++ spec.line_scope_text wire.on_b wire.channel) }
{
    put_opening(text, wire.on_b)?;
    put_declared(text, b"reg 16", b"w", b"word", wire)?;
    put_declared(text, b"reg 2", b"k", b"kind", wire)?;
    put_declared(text, b"reg 5", b"t", b"terminal", wire)?;
    put_declared(text, b"integer 64", b"m", b"message", wire)?;
    put_declared(text, b"reg 1", b"e", b"error", wire)?;
    text.extend_from_slice(b"$upscope $end\n")?;
    Ok(())
}

/// Puts the name of a channel, in front of its lines.
fn put_channel(text: &mut Vec<u8>, channel: u16) -> Result<(), AllocError>
    ensures { OnOk result (text.new.items ≡ text.old.items ++ spec.channel_text channel) }
{
    text.extend_from_slice(b"$scope module channel_")?;
    put_number(text, u128::from(channel))?;
    text.extend_from_slice(b" $end\n")?;
    Ok(())
}

/// Puts the declarations of the signals of a channel.
fn put_scope(text: &mut Vec<u8>, channel: u16) -> Result<(), AllocError>
    ensures { OnOk result (text.new.items ≡ text.old.items ++ spec.scope_text channel) }
{
    put_channel(text, channel)?;
    put_line(
        text,
        Wire {
            on_b: false,
            channel,
        },
    )?;
    put_line(
        text,
        Wire {
            on_b: true,
            channel,
        },
    )?;
    text.extend_from_slice(b"$upscope $end\n")?;
    Ok(())
}

/// Puts that a signal of an idle line has a value.
#[tactic(auto, unfolding(crate::specs::Waves::code_line))]
fn put_idle_signal(
    text: &mut Vec<u8>,
    value: &[u8],
    letter: &[u8],
    wire: Wire,
) -> Result<(), AllocError>
    ensures { OnOk result (text.new.items
        ≡ text.old.items ++ spec.idle_signal value.now letter.now wire.on_b wire.channel) }
{
    text.extend_from_slice(value)?;
    put_code(text, letter, wire)?;
    text.extend_from_slice(b"\n")
}

/// Puts that a line is idle, and without an error.
fn put_idle_line(text: &mut Vec<u8>, wire: Wire) -> Result<(), AllocError>
    ensures { OnOk result (text.new.items ≡ text.old.items ++ spec.idle_line wire.on_b wire.channel) }
{
    put_idle_signal(text, b"bz ", b"w", wire)?;
    put_idle_signal(text, b"bz ", b"k", wire)?;
    put_idle_signal(text, b"bz ", b"t", wire)?;
    put_idle_signal(text, b"bz ", b"m", wire)?;
    put_idle_signal(text, b"0", b"e", wire)?;
    Ok(())
}

/// Puts that the lines of a channel are idle, and without an error.
fn put_idle(text: &mut Vec<u8>, channel: u16) -> Result<(), AllocError>
    ensures { OnOk result (text.new.items ≡ text.old.items ++ spec.idle_text channel) }
{
    put_idle_line(
        text,
        Wire {
            on_b: false,
            channel,
        },
    )?;
    put_idle_line(
        text,
        Wire {
            on_b: true,
            channel,
        },
    )
}

/// What is put of each channel in front of the changes.
#[derive(Clone, Copy)]
pub(crate) enum Part {
    /// The declarations of its signals.
    Scope,
    /// That its lines are idle.
    Idle,
}

/// Puts a part of a channel.
fn put_part(text: &mut Vec<u8>, part: Part, channel: u16) -> Result<(), AllocError>
    ensures { OnOk result (text.new.items ≡ text.old.items ++ part_text part channel) }
{
    match part {
        Part::Scope => put_scope(text, channel),
        Part::Idle => put_idle(text, channel),
    }
}

/// Puts this part of all channels that are marked.
fn put_channels(text: &mut Vec<u8>, part: Part, marks: &[bool]) -> Result<(), AllocError>
    requires { length marks.now ≡ CHANNELS }
    ensures { OnOk result (text.new.items
        ≡ text.old.items ++ spec.channels_text (part_text part) (spec.marked marks.now) 65536) }
{
    'channels: for channel in 0..CHANNELS {
        if is_marked(marks, channel) {
            put_part(text, part, channel as u16)?;
        }
    }
    Ok(())
}

/// Puts the end of the declarations, and the first tick.
fn put_start(text: &mut Vec<u8>, tick: u128) -> Result<(), AllocError>
    ensures { OnOk result (text.new.items ≡ text.old.items ++ spec.start_text tick) }
{
    text.extend_from_slice(b"$enddefinitions $end\n#")?;
    put_number(text, tick)?;
    text.extend_from_slice(b"\n$dumpvars\n")?;
    Ok(())
}

/// Puts what stands in front of changes with these marks of their channels and this first tick.
pub(crate) fn put_head(text: &mut Vec<u8>, marks: &[bool], first: u128) -> Result<(), AllocError>
    requires { length marks.now ≡ CHANNELS }
    ensures { OnOk result ((given : List Item) → spec.ArePresent marks.now given → first ≡ spec.first_tick given
        → text.new.items ≡ text.old.items ++ spec.head_text given) }
{
    put_notes(text)?;
    put_channels(text, Part::Scope, marks)?;
    put_start(text, first)?;
    put_channels(text, Part::Idle, marks)?;
    text.extend_from_slice(b"$end\n")?;
    Ok(())
}
