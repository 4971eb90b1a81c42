//! The file's next message, and the message that a job makes next.
ghost use Rattle.byteorder.specs.Endian.{little_bytes};
ghost use Rattle.ch11_f1.specs.Again.{as_message};
ghost use Rattle.ch11_f1.specs.BodyBytes.{words_of};
ghost use Rattle.ch11_f1.specs.Views.{message_of};
ghost use Rattle.std.specs.List.{list_any, flat_map};
ghost use Rattle.std.specs.Prelude.{◌≡◌, ◌==◌, ◌↔◌, IsTrue};

use bench_report::ChannelReport;
use byteorder::{ByteOrder, LittleEndian};
use ch11_f1::{Record, Seen};

/// Whether bytes are the same.
fn are_same(bytes: &[u8], others: &[u8]) -> bool
    ensures { IsTrue result ↔ (bytes.now ≡ others.now) }
{
    bytes == others
}

/// Whether bytes are the bus words of a record, two for each, the low one first.
fn are_words(bytes: &[u8], made: &Record) -> bool
    ensures { IsTrue result ↔ (bytes.now ≡ flat_map (little_bytes 2) (words_of made.now)) }
{
    let words = made.words.as_slice();
    let size = 2 * words.len();
    let mut written = [0u8; 80];
    LittleEndian::write_u16_into(words, &mut written[..size]);
    are_same(bytes, &written[..size])
}

/// Whether a message of the file is the one that a record is written as.
pub(crate) fn is_record(seen: &Seen<'_>, made: &Record) -> bool
    ensures { IsTrue result ↔ (message_of seen.now ≡ as_message made.now) }
{
    if seen.stamp != made.stamp {
        return false;
    }
    if seen.block != made.block {
        return false;
    }
    if seen.gaps != made.gaps {
        return false;
    }
    are_words(seen.words, made)
}

/// Whether a report lists a message of its channel as refused.
pub(crate) fn is_refused(part: &ChannelReport, number: u32) -> bool
    ensures { result ≡ list_any (λ n. n == number) part.now.refused }
{
    part.refused().binary_search(&number).is_ok()
}
