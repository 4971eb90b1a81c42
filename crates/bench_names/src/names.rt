//! The names that setup records give to channels.
ghost use Rattle.bench_names.specs.Attributes.{attributes};
ghost use Rattle.bench_names.specs.Names as spec;
ghost use Rattle.std.specs.List.{find};
ghost use Rattle.std.specs.Prelude.{◌≡◌, ◌≢◌, ◌≤◌, ◌++◌, ℕ, List, drop, length, MatchOption, Some, None};

use crate::attributes::{Attribute, first_attribute};
use crate::records::first_record;
use numerals::spelled;
use std::str;

/// What stands in the name of the attribute with the number of a channel, as in `R-1\TK1-2`.
const TRACK: &[u8] = b"\\TK1-";

/// And in that of the one with its name, as in `R-1\DSI-2`.
const SOURCE: &[u8] = b"\\DSI-";

/// How many digits the number of a channel has at most.
const DIGITS: usize = 5;

/// How many bytes a name has at most.
const MOST: usize = 64;

/// The names of the channels of a recording, by the setup records in front of it.
#[derive(Clone, Copy, Debug)]
pub struct ChannelNames<'a> {
    /// The bytes of the recording, or of its front.
    front: &'a [u8],
}

impl<'a> ChannelNames<'a> {
    /// Those of a recording that begins so.
    pub fn of(front: &'a [u8]) -> ChannelNames<'a> {
        ChannelNames { front }
    }

    /// The name of a channel: the value of the attribute `R-x\DSI-n` where that of `R-x\TK1-n`, the first such one of a
    /// record, is the channel's number. None where there is none, or where it is no text of 1 to 64 printable ASCII
    /// characters.
    pub fn name(&self, channel: u16) -> Option<&'a str> {
        let mut rest = self.front;
        'records: while let Some((text, behind)) = first_record(rest) {
            if let Some(name) = name_in(text, channel) {
                return printable(name);
            }
            if behind.len() >= rest.len() {
                return None;
            }
            rest = behind;
        }
        None
    }
}

/// The name that the text of a setup record gives to a channel.
fn name_in(text: &[u8], channel: u16) -> Option<&[u8]>
    ensures { MatchOption result (spec.name_in channel text.now ≡ None)
        (λ name. spec.name_in channel text.now ≡ Some name.now) }
{
    match track_of(text, channel) {
        Some(attribute) => source_of(text, attribute.name),
        None => None,
    }
}

/// The first attribute that has the number of a channel.
fn track_of(text: &[u8], channel: u16) -> Option<Attribute<'_>>
    ensures { MatchOption result (find (spec.is_track channel) (attributes text.now) ≡ None)
        (λ a. find (spec.is_track channel) (attributes text.now) ≡ Some (a.name.now, a.value.now)) }
{
    let mut rest = text;
    'attributes: while let Some(attribute) = first_attribute(rest) {
        if is_track(attribute.name, attribute.value, channel) {
            return Some(attribute);
        }
        rest = attribute.rest;
    }
    None
}

/// The value of the first attribute that has the name of the data source of a track.
fn source_of<'a>(text: &'a [u8], track: &[u8]) -> Option<&'a [u8]>
    ensures { MatchOption result (spec.sourced track.now (attributes text.now) ≡ None)
        (λ value. spec.sourced track.now (attributes text.now) ≡ Some value.now) }
{
    let mut rest = text;
    'attributes: while let Some(attribute) = first_attribute(rest) {
        if is_source(attribute.name, track) {
            return Some(attribute.value);
        }
        rest = attribute.rest;
    }
    None
}

/// Whether an attribute of this name and value has the number of a channel.
fn is_track(name: &[u8], value: &[u8], channel: u16) -> bool
    ensures { result ≡ spec.is_track channel (name.now, value.now) }
{
    is_number(value, channel) && track_place(name) < name.len()
}

/// Whether a value is the number of a channel.
fn is_number(value: &[u8], channel: u16) -> bool
    ensures { result ≡ spec.is_number channel value.now }
{
    match spelled(10, 1, DIGITS, value) {
        Some(number) => number == u64::from(channel),
        None => false,
    }
}

/// Where the name of an attribute has what says that its value is the number of a channel, or its length where it has
/// not.
fn track_place(name: &[u8]) -> usize
    ensures value { result ≡ spec.track_place name.now }
    ensures within { result ≤ length name.now }
{
    for place in 0..name.len() {
        let (_, behind) = name.split_at(place);
        if behind.starts_with(TRACK) {
            return place;
        }
    }
    name.len()
}

/// Whether the name of an attribute is that of the data source of a track.
fn is_source(name: &[u8], track: &[u8]) -> bool
    ensures { result ≡ spec.is_source track.now name.now }
{
    let (front, behind) = track.split_at(track_place(track));
    let number = without(behind, TRACK.len());
    match behind_prefix(name, front) {
        Some(rest) => match behind_prefix(rest, SOURCE) {
            Some(tail) => tail == number,
            None => false,
        },
        None => false,
    }
}

/// What stands behind the first bytes of a name, so many of them.
fn without(name: &[u8], count: usize) -> &[u8]
    ensures { result.now ≡ drop count name.now }
{
    name.get(count..).unwrap_or(&[])
}

/// What stands behind a prefix of a name; None where it begins otherwise.
fn behind_prefix<'a>(name: &'a [u8], prefix: &[u8]) -> Option<&'a [u8]>
    ensures { MatchOption result ((rest : List ℕ) → name.now ≢ prefix.now ++ rest)
        (λ rest. name.now ≡ prefix.now ++ rest.now) }
{
    name.strip_prefix(prefix)
}

/// A name as text, if it is one that may be shown.
fn printable(name: &[u8]) -> Option<&str> {
    let shown = !name.is_empty()
        && name.len() <= MOST
        && name.iter().all(|byte| *byte >= b' ' && *byte <= b'~');
    if shown {
        str::from_utf8(name).ok()
    } else {
        None
    }
}
