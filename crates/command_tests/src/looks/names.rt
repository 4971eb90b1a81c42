//! The names that setup records give to channels, where no recording can be read that has them: worked out by hand.
use crate::looks::equal::same_in;
use bench_names::ChannelNames;
use std::alloc::Global;
use std::process::Abort;

/// A setup record of this text: a header of 24 bytes and the first four of the data, all fields by hand but the
/// lengths, of the packet and of the data, and the sum of the header's words.
fn record_of(rt: &impl Abort, alloc: Global, text: &str) -> Vec<u8> {
    let data = ((text.len() % 0x1_0000) as u16).wrapping_add(4);
    let filler = data.wrapping_neg() % 4;
    let size = data.wrapping_add(filler).wrapping_add(24);
    let sum = size.wrapping_add(data).wrapping_add(0xEC2B);
    let mut record = Vec::new(alloc);
    let words = [
        0xEB25, 0, size, 0, data, 0, 0x0006, 0x0100, 0, 0, 0, sum, 0, 0,
    ];
    for word in words {
        let bytes = word.to_le_bytes();
        record.extend_from_slice(&bytes).expect(rt, "memory");
    }
    record
        .extend_from_slice(text.as_bytes())
        .expect(rt, "memory");
    for _byte in 0..filler {
        record.push(0).expect(rt, "memory");
    }
    record
}

/// A setup record that is cut names no channel, nor does what is none.
#[test]
fn names_come_from_whole_records(rt: HostRuntime) {
    let mut records = record_of(&rt, rt.alloc(), "AB");
    let named = record_of(&rt, rt.alloc(), "R-1\\TK1-1:1;R-1\\DSI-1:LEFT;");
    records.extend_from_slice(&named).expect(&rt, "memory");
    let cut = records.len().saturating_sub(1);
    let (front, _) = records.split_at(cut);
    same_in(&rt, "cut", &ChannelNames::of(front).name(1), &None);
    same_in(&rt, "none", &ChannelNames::of(&[]).name(1), &None);
}
