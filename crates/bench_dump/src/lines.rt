//! The lines of a dump, appended to a text.
ghost use Rattle.bench_dump.specs.DumpText.{bus_words, byte_digits, packet_contents, packet_line};
ghost use Rattle.std.specs.Prelude.{◌≡◌, ◌++◌, OnOk, decimal};

use crate::digits::place_byte;
use crate::places::place_bus_words;
use crate::text::Text;
use ch11_header::kinds::BUS_MESSAGES;
use ch11_reader::Packet;
use itoa::Buffer;
use std::alloc::AllocError;

/// A byte as two digits.
fn digits_of_byte(byte: u8) -> [u8; 2]
    ensures { result ≡ byte_digits byte }
{
    let mut digits = [0; 2];
    place_byte(&mut digits, 0, byte);
    digits
}

/// Appends a label and a number.
pub(crate) fn put_number(text: &mut Text, label: &[u8], number: u64) -> Result<(), AllocError>
    ensures { OnOk result (text.new ≡ text.old ++ (label.now ++ decimal number)) }
{
    let mut buffer = Buffer::new();
    text.put(label)?;
    text.put(buffer.format(number).as_bytes())
}

/// Appends bus words, two bytes each with the low one first: a space and four upper-case hexadecimal digits for each.
pub fn put_words(text: &mut Vec<u8>, words: &[u8]) -> Result<(), AllocError>
    ensures { OnOk result (text.new.items ≡ text.old.items ++ bus_words words.now) }
{
    let start = text.len();
    let room = (words.len() / 2).saturating_mul(5);
    text.resize(start.saturating_add(room), 0)?;
    place_bus_words(text.as_mut_slice(), start, words);
    Ok(())
}

/// Appends the end of a packet's line.
#[tactic(auto, unfolding(crate::specs::DumpText::packet_contents))]
fn put_contents(text: &mut Text, packet: &Packet) -> Result<(), AllocError>
    ensures { OnOk result (text.new ≡ text.old ++ packet_contents packet.now.header packet.now.count) }
{
    if packet.header.kind != BUS_MESSAGES {
        return text.put(b" skipped\n");
    }
    put_number(text, b" seq ", packet.header.sequence as u64)?;
    text.put(b" flags ")?;
    text.put(&digits_of_byte(packet.header.flags))?;
    put_number(text, b" messages ", packet.count)?;
    text.put(b"\n")?;
    Ok(())
}

/// Appends the line of a packet.
#[tactic(auto, unfolding(crate::specs::DumpText::packet_line))]
pub(crate) fn put_packet_line(text: &mut Text, packet: &Packet) -> Result<(), AllocError>
    ensures { OnOk result (text.new ≡ text.old ++ packet_line packet.now.offset packet.now.header packet.now.count) }
{
    put_number(text, b"packet ", packet.offset as u64)?;
    put_number(text, b" channel ", packet.header.channel as u64)?;
    text.put(b" type ")?;
    text.put(&digits_of_byte(packet.header.kind))?;
    put_contents(text, packet)
}
