//! A session on the recording of a live run in which a post moved a fault by command.
use crate::looks::equal::reads;
use crate::steps::made::{RunTexts, subject_of};

/// A message is inserted as number 2, so that the second `rx 5 1`, at which the fault is due, is number 3.
const MOVED: RunTexts = RunTexts {
    jobs: &[
        "channel 1\nterminal 5\nfault rx 5 1 nth 2 drop 0 3\nscript\n\
         repeat 3 { send A rx 5 1 [0001 0002 0003] }\n",
    ],
    recorded: &[
        "channel 1\nterminal 5\nat 2 bc insert A mode 5 1\nfault 3 drop 0 3\nscript\n\
         repeat 3 { send A rx 5 1 [0001 0002 0003] }\n",
    ],
    report: "channel 1\nmade 4\nplaced 2 bc insert A mode 5 1\npackets 1\n",
};

#[test]
fn a_fault_behind_a_post(rt: HostRuntime) {
    let one = subject_of(&rt, rt.alloc(), &MOVED);
    let mut out = Vec::new(rt.alloc());
    let (ended, left) = one.session(rt.alloc(), "find silent\n", &mut out);
    assert_eq!(&rt; ended, Ok(()));
    reads(&rt, &out, "at 3\n");
    reads(&rt, left, "");
}
