//! What the packets of a recording tell of the time.
ghost use Rattle.bench_clock.specs.Clock as spec;
ghost use Rattle.ch11_header.specs.HeaderReading.{body_start};
ghost use Rattle.ch11_reader.specs.Recording.{body_of};
ghost use Rattle.std.specs.Prelude.{◌≡◌, ◌++◌, take, drop, IfOk, OnOk};

use crate::clock::Mark;
use crate::told::{PacketTime, read_time};
use ch11_header::Header;
use ch11_header::kinds::TIME_DATA;
use std::alloc::{AllocError, Global};

/// The body of the packet that has this header and begins these bytes.
fn body_in<'a>(header: &Header, bytes: &'a [u8]) -> &'a [u8]
    ensures { result.now ≡ body_of header.now bytes.now }
{
    let behind = bytes.get(header.body_start()..).unwrap_or(&[]);
    let size = behind.len().min(header.data_length as usize);
    &behind[..size]
}

/// Whether a packet is of the channel whose time packets count; each is where none is named.
fn is_of(named: Option<u16>, header: &Header) -> bool
    ensures { result ≡ spec.is_of named header.now }
{
    match named {
        None => true,
        Some(channel) => header.channel == channel,
    }
}

/// Whether it is a time packet of that channel.
pub(crate) fn is_time(named: Option<u16>, header: &Header) -> bool
    ensures { result ≡ spec.is_time named header.now }
{
    header.kind == TIME_DATA && is_of(named, header)
}

/// The time that the packet tells that has this header and begins these bytes; None for a packet that is no time packet
/// of the channel that is named, or one that can't be read.
pub(crate) fn told_in(named: Option<u16>, header: &Header, bytes: &[u8]) -> Option<PacketTime>
    ensures { result ≡ spec.told_in named header.now bytes.now }
{
    if !is_time(named, header) {
        return None;
    }
    read_time(body_in(header, bytes))
}

/// Appends the mark of a packet, if it is above the last one, and answers the last counter behind it.
pub(crate) fn keep(
    marks: &mut Vec<Mark>,
    last: Option<u64>,
    counter: u64,
    told: Option<PacketTime>,
) -> Result<Option<u64>, AllocError>
    ensures marks { OnOk result (marks.new.items ≡ marks.old.items ++ spec.mark_of last counter told) }
    ensures last { IfOk result (λ l. l ≡ spec.last_behind last counter told) }
{
    let Some(time) = told else {
        return Ok(last);
    };
    if last.is_some_and(|last| counter <= last) {
        return Ok(last);
    }
    marks.push(Mark { counter, time })?;
    Ok(Some(counter))
}
