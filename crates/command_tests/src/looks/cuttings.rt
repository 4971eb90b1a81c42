//! What `bench cut` makes of a recording of which no message is chosen, worked out by hand: no command writes it.
use crate::looks::equal::same_in;
use bench_cut::cut;
use bench_select::Selection;
use std::alloc::Global;
use std::process::Abort;
use test_values::FOREIGN;

/// All messages of a channel.
fn of(channel: u16) -> Selection<'static> {
    Selection {
        channel: Some(channel),
        line: None,
        selector: None,
        signal: None,
        errors: false,
        from: None,
        to: None,
        origins: &[],
    }
}

/// A file is cut to these bytes, and it is answered whether a message was chosen.
fn is_cut(
    rt: &impl Abort,
    alloc: Global,
    file: &[u8],
    selection: &Selection<'_>,
    wanted: &[u8],
    any: bool,
) {
    let mut out = Vec::new(alloc);
    let answer = cut(alloc, file, selection, &mut out);
    same_in(rt, "answer", &answer, &Ok(any));
    same_in(rt, "file", &out.as_slice(), &wanted);
}

/// Packets of other types go over, whatever is chosen.
#[test]
fn other_types_go_over(rt: HostRuntime) {
    let (setup, _) = FOREIGN.split_at(32);
    is_cut(&rt, rt.alloc(), &FOREIGN, &of(2), setup, false);
}
