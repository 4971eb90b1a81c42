//! The open packet of a channel in its buffer.
ghost use Rattle.ch11_builder.specs.Built.{State};
ghost use Rattle.ch11_builder.specs.Cutting.{is_empty};
ghost use Rattle.ch11_builder.specs.Held.{Held, fresh, fits, pushed, closed, with_record, packet_of, latest_number};
ghost use Rattle.ch11_builder.specs.Packet.{packet_length};
ghost use Rattle.ch11_header.specs.Flags.{overflow};
ghost use Rattle.std.specs.Prelude.{if◌then◌else◌, length, vec_len, IfOk, IfErr};
ghost use Rattle.std.specs.Prelude.{◌≡◌, [], ◌∷◌, ◌++◌, ◌+◌, ◌≤◌, ◌<◌, ◌^◌, ◌==◌, ◌||◌, true, false, not};

use crate::error::BuilderError;
use crate::numbered::NumberedRecord;
use crate::sealing::{FIRST_MESSAGE, padded, put_behind, seal};
use ch11_f1::{RECORD_HEAD, Record};
use ch11_header::kinds::BUS_MESSAGES;
use ch11_header::{Header, OVERFLOW};
use history::History;
use std::alloc::Global;
use std::marker::Model;

/// Packets span less than this many ticks of 0.1 µs from their first stamp to their last.
const LONGEST: u64 = 1_000_000;

/// Two buffers: the one with the open packet, and the one with the packet that was finished last.
#[derive(Drop)]
pub struct Packing {
    channel: u16,
    version: u8,
    limit: usize,
    filling: Vec<u8>,
    done: Vec<u8>,
    used: usize,
    finished: usize,
    count: u32,
    first_stamp: u64,
    last: u64,
    before: u64,
    place: u64,
    overflow: bool,
    records: History<NumberedRecord>,
}

impl Model for Packing {
    ghost use Rattle.ch11_builder.specs.Built.{State};

    ghost Value = { State };

    ghost use Rattle.ch11_builder.specs.Built.{state_of, IsBuilt};

    ghost view = { state_of };

    ghost invariant = { IsBuilt };
}

/// The stamp of the first record, where one more comes.
fn first_of(count: u32, first: u64, stamp: u64) -> u64
    ensures { result ≡ (if count == 0 then stamp else first) }
{
    if count == 0 { stamp } else { first }
}

/// Whether a record is missing, where one more comes.
fn jumps(overflow: bool, last: u64, number: u64) -> bool
    requires { last < number }
    ensures { result ≡ overflow || not (number == last + 1) }
{
    overflow || number != last + 1
}

fn flags_of(missing: bool) -> u8
    ensures { result ≡ (if missing then overflow else 0) }
{
    if missing { OVERFLOW } else { 0 }
}

/// A buffer of so many bytes.
fn buffer_of(alloc: Global, size: usize) -> Result<Vec<u8>, BuilderError>
    ensures room { IfOk result (λ v. (length v.items ≡ size) × (vec_len v ≡ size)) }
    ensures memory { IfErr result (λ e. e ≡ BuilderError.Memory) }
{
    match vec![in alloc; 0u8; size] {
        Ok(buffer) => Ok(buffer),
        Err(_) => Err(BuilderError::Memory),
    }
}

impl Packing {
    /// No record yet, and room for two packets.
    pub(crate) fn make(
        alloc: Global,
        channel: u16,
        version: u8,
        limit: usize,
    ) -> Result<Packing, BuilderError>
        requires low { 256 ≤ limit }
        requires high { limit ≤ 524288 }
        ensures fresh { IfOk result
            (λ p. p.held ≡ fresh (record { channel = channel; version = version; limit = limit })) }
        ensures memory { IfErr result (λ e. e ≡ BuilderError.Memory) }
    {
        let filling = buffer_of(alloc, limit)?;
        let done = buffer_of(alloc, limit)?;
        Ok(Packing {
            channel,
            version,
            limit,
            filling,
            done,
            used: FIRST_MESSAGE,
            finished: 0,
            count: 0,
            first_stamp: 0,
            last: 0,
            before: 0,
            place: 0,
            overflow: false,
            records: History::none(),
        })
    }

    /// Whether the open packet can hold the record too.
    #[tactic(auto, unfolding(crate::specs::Held::fits))]
    fn takes(&self, number: u64, message: &Record) -> bool
        requires stamp { message.now.stamp < 2 ^ 48 }
        ensures answer { result ≡ fits self.now.held (record { number = number; message = message.now }) }
        ensures room { result ≡ true →
            packet_length (self.now.held.records ++ record { number = number; message = message.now } ∷ [])
            ≤ self.now.held.channel.limit }
        ensures alone { packet_length (record { number = number; message = message.now } ∷ [])
            ≤ self.now.held.channel.limit }
        ensures some { result ≡ false → 0 < length self.now.held.records }
    {
        let size = RECORD_HEAD + 2 * message.words.as_slice().len();
        self.count == 0
            || (padded(self.used + size) <= self.limit
                && message.stamp < self.first_stamp + LONGEST)
    }

    /// Puts a record into the open packet.
    fn keep(&mut self, number: u64, message: &Record)
        requires room { packet_length
            (self.old.held.records ++ record { number = number; message = message.now } ∷ [])
            ≤ self.old.held.channel.limit }
        requires number { latest_number self.old.held < number }
        requires stamp { message.now.stamp < 2 ^ 48 }
        ensures { self.new ≡ record self.old
            { held = with_record self.old.held (record { number = number; message = message.now }) } }
    {
        self.first_stamp = first_of(self.count, self.first_stamp, message.stamp);
        self.overflow = jumps(self.overflow, self.last, number);
        self.last = number;
        self.count += 1;
        self.used = put_behind(&mut self.filling, self.used, message);
        self.records = self
            .records
            .put_behind(&NumberedRecord::of(number, message));
    }

    /// Finishes the packet of the open records.
    pub(crate) fn finish(&mut self)
        requires { 0 < length self.old.held.records }
        ensures { self.new ≡ record { held = closed self.old.held; lent = packet_of self.old.held } }
    {
        let header = Header {
            channel: self.channel,
            packet_length: padded(self.used) as u32,
            data_length: (self.used - 24) as u32,
            version: self.version,
            sequence: (self.place % 256) as u8,
            flags: flags_of(self.overflow),
            kind: BUS_MESSAGES,
            counter: self.first_stamp,
        };
        self.finished = seal(&mut self.filling, self.used, &header, self.count);
        std::mem::swap(&mut self.filling, &mut self.done);
        self.used = FIRST_MESSAGE;
        self.count = 0;
        self.first_stamp = 0;
        self.before = self.last;
        self.place += 1;
        self.overflow = false;
        self.records = History::none();
    }

    /// Takes the record in, and says whether it opened a new packet.
    #[tactic(auto, unfolding(crate::specs::Held::pushed))]
    pub(crate) fn advance(&mut self, number: u64, message: &Record) -> bool
        requires number { latest_number self.old.held < number }
        requires stamp { message.now.stamp < 2 ^ 48 }
        ensures answer { result ≡ not (fits self.old.held (record { number = number; message = message.now })) }
        ensures held { self.new.held ≡ pushed self.old.held (record { number = number; message = message.now }) }
        ensures lent { result ≡ true → self.new.lent ≡ packet_of self.old.held }
    {
        let opens = !self.takes(number, message);
        if opens {
            self.finish();
        }
        self.keep(number, message);
        opens
    }

    /// The packet that was finished last.
    pub(crate) fn lent(&self) -> &[u8]
        ensures lent { result.now ≡ self.now.lent }
        ensures small { length result.now ≤ 524288 }
    {
        &self.done[..self.finished]
    }

    /// Whether the open packet has no record.
    pub(crate) fn is_empty(&self) -> bool
        ensures empty { result ≡ is_empty self.now.held.records }
        ensures some { result ≡ false → 0 < length self.now.held.records }
        ensures none { result ≡ true → self.now.held.records ≡ [] }
    {
        self.count == 0
    }
}
