//! Usage faults.
ghost use Rattle.bench_complete.specs.Judging.{is_setup, is_timed_twice, is_too_long, misuse_by, misuse_of};
ghost use Rattle.bench_complete.specs.Judging.{tells_time_by};
ghost use Rattle.ch11_reader.specs.Recording.{body_of};
ghost use Rattle.std.specs.List.{list_any};
ghost use Rattle.std.specs.Prelude.{◌≡◌, ◌==◌, ◌&&◌, MatchResult, None, Some, option_map};

use crate::additions::{Additions, MOST_SETUP};
use crate::extent::Extent;
use crate::fault::CompleteFault;
use crate::placed::Placed;
use bench_clock::is_time_body;
use ch11_header::Header;
use ch11_header::kinds::{SETUP_RECORD, TIME_DATA};

/// The most time packets of a file.
const MOST_TIMES: u64 = 1_000_000;

/// Whether the text of a setup record has 1 to 524,000 bytes.
pub(crate) fn is_setup(setup: Option<&[u8]>) -> bool
    ensures { result ≡ is_setup (option_map (λ text. text.now) setup.entry) }
{
    match setup {
        None => true,
        Some(text) => !text.is_empty() && text.len() <= MOST_SETUP,
    }
}

/// Whether a packet of this type is among them.
fn has_kind(packets: &[Placed], kind: u8) -> bool
    ensures { result ≡ list_any (λ e. e.header.kind == kind) packets.now }
{
    packets.iter().any(|packet| packet.header.kind == kind)
}

/// Whether a packet of this channel is among them.
fn has_channel(packets: &[Placed], channel: u16) -> bool
    ensures { result ≡ list_any (λ e. e.header.channel == channel) packets.now }
{
    packets
        .iter()
        .any(|packet| packet.header.channel == channel)
}

/// The body of the packet that has this header and begins these bytes.
fn body_in<'a>(header: &Header, bytes: &'a [u8]) -> &'a [u8]
    ensures { result.now ≡ body_of header.now bytes.now }
{
    let behind = bytes.get(header.body_start()..).unwrap_or(&[]);
    let size = behind.len().min(header.data_length as usize);
    &behind[..size]
}

/// Whether the packet that has this header and begins these bytes is a time packet.
pub(crate) fn tells_time(header: &Header, bytes: &[u8]) -> bool
    ensures { result ≡ tells_time_by header.now bytes.now }
{
    if header.kind != TIME_DATA {
        return false;
    }
    is_time_body(body_in(header, bytes))
}

/// Whether there would be more than 1,000,000 time packets.
fn is_too_long(extent: Option<Extent>) -> bool
    ensures { result ≡ is_too_long extent }
{
    match extent {
        None => false,
        Some(extent) => extent.seconds() > MOST_TIMES,
    }
}

/// The first of four faults.
fn first_fault(
    setup_twice: bool,
    time_twice: bool,
    taken: bool,
    long: bool,
) -> Result<(), CompleteFault>
    ensures { MatchResult result (λ _. misuse_of setup_twice time_twice taken long ≡ None)
        (λ f. misuse_of setup_twice time_twice taken long ≡ Some f) }
{
    if setup_twice {
        Err(CompleteFault::SetupTwice)
    } else if time_twice {
        Err(CompleteFault::TimeTwice)
    } else if taken {
        Err(CompleteFault::ChannelTaken)
    } else if long {
        Err(CompleteFault::TooLong)
    } else {
        Ok(())
    }
}

/// Both are true.
fn both(one: bool, other: bool) -> bool
    ensures { result ≡ (one && other) }
{
    one && other
}

/// Whether time packets are asked for beside those of a recording, and not as second ones.
fn is_timed_twice(additions: &Additions<'_>, timed: bool) -> bool
    ensures { result ≡ is_timed_twice additions.now timed }
{
    both(
        additions.start.is_some(),
        both(!additions.second_time, timed),
    )
}

/// Judges what is to be added to packets of this extent, among which there is a time packet or not.
pub(crate) fn judge(
    additions: &Additions<'_>,
    packets: &[Placed],
    has_time: bool,
    extent: Option<Extent>,
) -> Result<(), CompleteFault>
    ensures { MatchResult result (λ _. misuse_by packets.now has_time additions.now extent ≡ None)
        (λ f. misuse_by packets.now has_time additions.now extent ≡ Some f) }
{
    let timed = additions.start.is_some();
    first_fault(
        both(additions.setup.is_some(), has_kind(packets, SETUP_RECORD)),
        is_timed_twice(additions, has_time),
        both(timed, has_channel(packets, additions.time_channel)),
        both(timed, is_too_long(extent)),
    )
}
