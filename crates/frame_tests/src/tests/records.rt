//! Records against those that are expected.

use crate::tests::equal::{same, same_in};
use bc_machine::{Machine, NextMessage, Stepped};
use ch11_f1::Record;
use std::process::Abort;

/// A record as it is expected: its stamp, block status and gap times, where they are told, and its words.
pub(crate) type Row = (Option<u64>, Option<(u16, u16)>, &'static [u16]);

/// The record is this row, and there is one; a failure names the text that they are of.
fn is_row(rt: &impl Abort, text: &str, record: &Record, row: Option<&Row>) {
    let (stamp, fields, words) = *row.expect(rt, text);
    let told = fields.unwrap_or((record.block, record.gaps));
    same_in(rt, text, &record.stamp, &stamp.unwrap_or(record.stamp));
    same_in(rt, text, &(record.block, record.gaps), &told);
    same_in(rt, text, &record.words.as_slice(), &words);
}

/// What was told of the message that comes next is that it starts with this record; a failure names the text.
fn was_told(rt: &impl Abort, text: &str, next: Option<NextMessage>, record: &Record) {
    let start = next.expect(rt, text).start;
    same_in(rt, text, &start, &record.stamp);
}

/// The machine sends these rows in so many steps, or until it halts, each message when it is told before; a failure
/// names the text that they are of.
pub(crate) fn sends(rt: &impl Abort, text: &str, machine: &mut Machine, steps: u32, rows: &[Row]) {
    let mut left = rows.iter();
    for _ in 0..steps {
        let next = machine.next_message();
        match machine.step() {
            Stepped::Ran => same_in(rt, text, &next.is_none(), &true),
            Stepped::Halted => break,
            Stepped::Sent(record) | Stepped::Inserted(record) => {
                was_told(rt, text, next, &record);
                is_row(rt, text, &record, left.next());
            }
        }
    }
    same_in(rt, text, &left.next().is_none(), &true);
}

/// The machine halts, after so many messages.
pub(crate) fn has_ended(rt: &impl Abort, machine: &mut Machine, messages: usize) {
    let halts = matches!(machine.step(), Stepped::Halted);
    same(rt, &(halts, machine.number() as usize), &(true, messages));
}
