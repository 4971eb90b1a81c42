//! The text of a setup record that describes the channels of a recording.
ghost use Rattle.bench_names.specs.Describing as spec;
ghost use Rattle.std.specs.Prelude.{◌≡◌, ◌++◌, OnOk, IfOk, decimal};

use itoa::Buffer;
use std::alloc::{AllocError, Global};

/// What the packets of a channel hold.
#[derive(Clone, Copy, Debug, PartialEq, Eq)]
pub enum Holds {
    /// Messages of a MIL-STD-1553 bus.
    Messages,
    /// Times.
    Times,
    /// Data of another type.
    Others,
}

/// A channel of a recording, as a setup record describes it.
#[derive(Clone, Copy, Debug)]
pub struct Described {
    /// Its number, 1 to 65535.
    pub number: u16,
    /// What its packets hold.
    pub holds: Holds,
}

/// The text of a setup record of these channels: program and recorder, how many channels there are, and of each, by its
/// place in the list from 1, its number, that it is enabled, its name, `Channel N`, and the type of its data where this
/// is known: attributes of IRIG 106-17 Chapter 9, each on a line. At most 89 bytes a channel, and 75 besides.
#[tactic(auto, unfolding(crate::specs::Describing::setup_text))]
pub fn setup_text(alloc: Global, channels: &[Described]) -> Result<Vec<u8>, AllocError>
    ensures { IfOk result (λ text. text.items ≡ spec.setup_text channels.now) }
{
    let mut text = Vec::new(alloc);
    put_recorder(&mut text, channels.len() as u64)?;
    put_channels(&mut text, channels)?;
    Ok(text)
}

/// Appends an attribute, on a line.
#[tactic(auto, unfolding(crate::specs::Describing::attribute))]
fn put_attribute(text: &mut Vec<u8>, name: &[u8], value: &[u8]) -> Result<(), AllocError>
    ensures { OnOk result (text.new.items ≡ text.old.items ++ spec.attribute name.now value.now) }
{
    text.extend_from_slice(name)?;
    text.extend_from_slice(b":")?;
    text.extend_from_slice(value)?;
    text.extend_from_slice(b";\n")
}

/// Appends an attribute of the channel at a place.
#[tactic(auto, unfolding(crate::specs::Describing::numbered))]
fn put_numbered(text: &mut Vec<u8>, name: &[u8], place: u64, value: &[u8]) -> Result<(), AllocError>
    ensures { OnOk result (text.new.items ≡ text.old.items ++ spec.numbered name.now place value.now) }
{
    let mut buffer = Buffer::new();
    text.extend_from_slice(name)?;
    put_attribute(text, buffer.format(place).as_bytes(), value)
}

/// Appends what is said of the recorder.
#[tactic(auto, unfolding(crate::specs::Describing::recorder))]
fn put_recorder(text: &mut Vec<u8>, channels: u64) -> Result<(), AllocError>
    ensures { OnOk result (text.new.items ≡ text.old.items ++ spec.recorder channels) }
{
    let mut buffer = Buffer::new();
    put_attribute(text, b"G\\PN", b"Recording")?;
    put_attribute(text, b"G\\DSI\\N", b"1")?;
    put_attribute(text, b"G\\DSI-1", b"Recorder")?;
    put_attribute(text, b"R-1\\ID", b"Recorder")?;
    put_attribute(text, b"R-1\\N", buffer.format(channels).as_bytes())
}

/// Appends the type of the data of the channel at a place, where it is known.
#[tactic(auto, unfolding(crate::specs::Describing::data_type))]
fn put_type(text: &mut Vec<u8>, place: u64, holds: Holds) -> Result<(), AllocError>
    ensures { OnOk result (text.new.items ≡ text.old.items ++ spec.data_type place holds) }
{
    match holds {
        Holds::Messages => put_numbered(text, b"R-1\\CDT-", place, b"1553IN"),
        Holds::Times => put_numbered(text, b"R-1\\CDT-", place, b"TIMEIN"),
        Holds::Others => Ok(()),
    }
}

/// Appends the name of the channel at a place.
#[tactic(auto, unfolding(crate::specs::Describing::source))]
fn put_name(text: &mut Vec<u8>, place: u64, number: u64) -> Result<(), AllocError>
    ensures { OnOk result (text.new.items ≡ text.old.items ++ spec.source place number) }
{
    let (mut first, mut second) = (Buffer::new(), Buffer::new());
    text.extend_from_slice(b"R-1\\DSI-")?;
    text.extend_from_slice(first.format(place).as_bytes())?;
    put_called(text, second.format(number).as_bytes())
}

/// Appends what a channel of this number is called, behind the name of an attribute.
#[tactic(auto, unfolding(crate::specs::Describing::called))]
fn put_called(text: &mut Vec<u8>, number: &[u8]) -> Result<(), AllocError>
    ensures { OnOk result (text.new.items ≡ text.old.items ++ spec.called number.now) }
{
    text.extend_from_slice(b":Channel ")?;
    text.extend_from_slice(number)?;
    text.extend_from_slice(b";\n")
}

/// Appends what is said of the channel at a place.
#[tactic(auto, unfolding(crate::specs::Describing::described))]
fn put_channel(text: &mut Vec<u8>, place: u64, channel: &Described) -> Result<(), AllocError>
    ensures { OnOk result (text.new.items ≡ text.old.items ++ spec.described place channel.now) }
{
    let mut buffer = Buffer::new();
    let number = u64::from(channel.number);
    put_numbered(text, b"R-1\\TK1-", place, buffer.format(number).as_bytes())?;
    put_numbered(text, b"R-1\\CHE-", place, b"T")?;
    put_name(text, place, number)?;
    put_type(text, place, channel.holds)
}

/// Appends what is said of each channel.
fn put_channels(text: &mut Vec<u8>, channels: &[Described]) -> Result<(), AllocError>
    ensures { OnOk result (text.new.items ≡ text.old.items ++ spec.each 1 channels.now) }
{
    let (mut place, mut rest) = (1usize, channels);
    'channels: while let Some((channel, others)) = rest.split_first() {
        put_channel(text, place as u64, channel)?;
        place += 1;
        rest = others;
    }
    Ok(())
}
