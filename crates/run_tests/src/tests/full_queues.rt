//! A full queue: each message is read or listed as refused, and never both.
use crate::tests::fixtures::{TEN_MESSAGES, index_of, kept_of, recorded};
use crate::tests::gates::{OrderingGate, Rules};
use bench_report::Report;
use ch11_reader::Index;

/// How many messages of all channels were read, where each channel made ten, and each of these was read or is listed as
/// refused, and never both.
fn kept_in(index: &Index<'_>, report: &Report) -> Option<u64> {
    let mut all = 0u64;
    for part in report.channels() {
        let kept = kept_of(index, part)?;
        let refused = part.refused().len() as u64;
        if part.made() != 10 || kept.saturating_add(refused) != 10 {
            return None;
        }
        all = all.saturating_add(kept);
    }
    Some(all)
}

#[test]
fn a_writer_that_is_held_from_its_first_item(rt: HostRuntime) {
    let gate = OrderingGate::by(Rules::UntilTheTenth);
    let (report, sink) = recorded(&rt, rt.alloc(), &TEN_MESSAGES, 1, &gate);
    assert!(rt; gate.all_came());
    let kept = kept_in(&index_of(&rt, rt.alloc(), sink.bytes()), &report);
    assert!(rt; matches!(kept, Some(1 | 2)));
}
