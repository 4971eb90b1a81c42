//! Packets judged at any place of a file, in time that stays in proportion to its bytes.
ghost use Rattle.ch11_header.specs.HeaderReading.{body_start};
ghost use Rattle.ch11_reader.specs.Recording.{packet_messages, packet_at};
ghost use Rattle.ch11_reader.specs.Skipping.{bytes_before};
ghost use Rattle.ch11_reader.specs.Walking.{IsRest};
ghost use Rattle.std.specs.Prelude.{◌≡◌, ◌+◌, ◌≤◌, length, drop, IfOk, IfSome, MatchResult, Ok, Err};

use crate::error::PacketFault;
use crate::jumps::Jumps;
use crate::packet::{Checked, check_packet};
use byteorder::{ByteOrder, LittleEndian};
use ch11_f1::RECORD_HEAD;
use ch11_header::kinds::BUS_MESSAGES;
use ch11_header::read_header;
use std::alloc::{AllocError, Global};
use std::marker::Model;

/// Who judges the packets of a file. It counts how many messages it walked over in bodies that turned out to have a
/// fault, and makes tables of jumps once they are too many. Contracts see the file's bytes.
#[derive(Drop)]
pub(crate) struct Judge<'a> {
    alloc: Global,
    file: &'a [u8],
    jumps: Jumps<'a>,
    walked: usize,
}

impl<'a> Model for Judge<'a> {
    ghost use Rattle.std.specs.Prelude.{◌≡◌, ℕ, List};

    ghost Value = { List ℕ };

    ghost view = { λ j. j.file.now };

    ghost invariant = { λ j. j.jumps ≡ j.file.now };
}

/// How many messages there can be in the body of the packet that begins these bytes.
fn most_messages(bytes: &[u8]) -> usize {
    match read_header(bytes) {
        Ok(header) => header.data_length as usize / RECORD_HEAD,
        Err(_) => 0,
    }
}

impl<'a> Judge<'a> {
    /// Nothing was walked over yet.
    pub(crate) fn of(alloc: Global, file: &'a [u8]) -> Judge<'a>
        ensures { result ≡ file.now }
    {
        Judge {
            alloc,
            file,
            jumps: Jumps::none(alloc, file),
            walked: 0,
        }
    }

    /// Whether too much was walked in vain: as many messages as a file of this length can have.
    fn is_wary(&self) -> bool {
        self.walked > self.file.len() / RECORD_HEAD
    }

    /// Makes the table of jumps for a place where it is due.
    fn prepare(&mut self, place: usize) -> Result<(), AllocError>
        ensures { self.new ≡ self.old }
    {
        if self.is_wary() && self.jumps.is_empty_at(place) {
            self.jumps.make(self.alloc, place)?;
        }
        Ok(())
    }

    /// The fault of the body of the packet at a place, found by jumps. None where another fault comes first, and where
    /// there is none.
    fn body_fault(&self, place: usize) -> Option<PacketFault>
        requires { place ≤ length self.now }
        ensures { IfSome result (λ f. packet_at (drop place self.now) ≡ Err f) }
    {
        let (_, bytes) = self.file.split_at(place);
        let Ok(header) = read_header(bytes) else {
            return None;
        };
        if bytes.len() < header.packet_length as usize || header.kind != BUS_MESSAGES {
            return None;
        }
        let start = header.body_start();
        let (_, behind_head) = bytes.split_at(start);
        let (body, _) = behind_head.split_at(header.data_length as usize);
        if body.len() < 4 {
            return None;
        }
        let count = LittleEndian::read_u32(body) % 0x100_0000;
        let end = place + start + header.data_length as usize;
        match self.jumps.fault(place + start + 4, end, count) {
            Some(fault) => Some(PacketFault::Body(fault)),
            None => None,
        }
    }

    /// The packet that begins the rest of the file, or its first fault. Where no header stands, that is all that is
    /// looked at.
    #[tactic(auto, unfolding(crate::specs::Recording::packet_at))]
    pub(crate) fn check(&mut self, rest: &[u8]) -> Result<Checked, PacketFault>
        requires rest { IsRest self.old rest.now }
        ensures read { MatchResult result (λ c. packet_at rest.now ≡ Ok c.header) (λ f. packet_at rest.now ≡ Err f) }
        ensures count { IfOk result (λ c. c.count ≡ length (packet_messages c.header rest.now)) }
        ensures few { IfOk result (λ c. c.count ≤ c.header.packet_length) }
        ensures whole { IfOk result
            (λ c. (24 ≤ c.header.packet_length) × (c.header.packet_length ≤ length rest.now)
            × (body_start c.header + c.header.data_length ≤ c.header.packet_length)) }
        ensures same { self.new ≡ self.old }
    {
        if let Err(fault) = read_header(rest) {
            return Err(PacketFault::Header(fault));
        }
        if self.is_wary() {
            if let Some(fault) = self.body_fault(self.file.len() - rest.len()) {
                return Err(fault);
            }
        }
        let checked = check_packet(rest);
        if let Err(PacketFault::Body(_)) = &checked {
            self.walked = self.walked.saturating_add(most_messages(rest));
        }
        checked
    }

    /// How many bytes of the rest of the file stand before the next packet without a fault.
    pub(crate) fn bytes_to_skip(&mut self, bytes: &[u8]) -> Result<usize, AllocError>
        requires rest { IsRest self.old bytes.now }
        ensures skipped { IfOk result (λ n. n ≡ bytes_before bytes.now) }
        ensures same { self.new ≡ self.old }
    {
        let mut rest = bytes;
        'bytes: while !rest.is_empty() {
            self.prepare(self.file.len() - rest.len())?;
            if self.check(rest).is_ok() {
                break;
            }
            let (_, after) = rest.split_at(1);
            rest = after;
        }
        Ok(bytes.len() - rest.len())
    }
}
