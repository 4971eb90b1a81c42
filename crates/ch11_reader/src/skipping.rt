//! A recording read as far as it is sound.
ghost use Rattle.ch11_reader.specs.Skipping.{packets_read, skips_in};
ghost use Rattle.ch11_reader.specs.declared.error.ReadError.TheVariants.{Memory};
ghost use Rattle.std.specs.Prelude.{◌≡◌, length, IfOk, IfErr};

use crate::build::{list_packet, no_sequences};
use crate::error::ReadError;
use crate::index::Index;
use crate::judge::Judge;
use crate::skip::Skip;
use std::alloc::Global;

/// A recording that may be damaged: the packets that could be read, and the bytes that were skipped between them.
#[derive(Drop)]
pub struct SkippingIndex<'a> {
    /// The packets that were read, in the file's order. Their messages are numbered over them.
    pub index: Index<'a>,

    /// The bytes that were skipped, in the file's order.
    pub skips: Vec<Skip>,
}

impl<'a> SkippingIndex<'a> {
    /// The bytes that were skipped, in the file's order; none where the recording is sound.
    pub fn skipped(&self) -> &[Skip]
        ensures { result.now ≡ self.now.skips.items }
    {
        &self.skips
    }
}

/// The packets of a recording, and what was skipped. Only memory can be refused.
pub(crate) fn read_skipping<'a>(
    alloc: Global,
    file: &'a [u8],
) -> Result<SkippingIndex<'a>, ReadError>
    ensures read { IfOk result (λ found. found.index ≡ packets_read file.now) }
    ensures skipped { IfOk result (λ found. found.skips.items ≡ skips_in file.now) }
    ensures memory { IfErr result (λ e. e ≡ Memory) }
{
    let mut latest = no_sequences(alloc)?;
    let mut packets = Vec::new(alloc);
    let mut skips = Vec::new(alloc);
    let mut judge = Judge::of(alloc, file);
    let mut before = 0u64;
    let mut rest = file;
    'stretches: while !rest.is_empty() {
        let offset = file.len() - rest.len();
        match judge.check(rest) {
            Ok(checked) => {
                let packet = list_packet(&mut latest, offset, before, checked);
                packets.push(packet)?;
                before += checked.count;
                rest = rest.split_at(checked.header.packet_length as usize).1;
            }
            Err(fault) => {
                let length = judge.bytes_to_skip(rest)?;
                skips.push(Skip {
                    offset,
                    length,
                    fault,
                })?;
                rest = rest.split_at(length).1;
            }
        }
    }
    let index = Index {
        file,
        packets,
        total: before,
    };
    Ok(SkippingIndex { index, skips })
}
