//! What `bench complete` makes of recordings, where no command shows it: worked out by hand.
use crate::looks::equal::same_in;
use crate::looks::made::recorded;
use bench_complete::{Additions, CompleteFault, Completion, UtcSecond, complete};
use std::alloc::Global;
use std::process::Abort;
use test_values::FOREIGN;

/// A poll at tick 15,000,000.
const LATE: &str = "channel 1\nterminal 5\nstart 15000000\nscript\nsend A mode 5 1\n";

/// The options where nothing is added.
fn no_additions() -> Additions<'static> {
    Additions {
        setup: None,
        start: None,
        time_channel: 65535,
        second_time: false,
        version: 6,
    }
}

/// A file is completed to these bytes.
fn is_completed(rt: &impl Abort, alloc: Global, file: &[u8], added: &Additions<'_>, wanted: &[u8]) {
    let mut out = Vec::new(alloc);
    let answer = complete(alloc, file, added, &mut out);
    same_in(rt, "answer", &answer, &Ok(()));
    same_in(rt, "file", &out.as_slice(), &wanted);
}

/// What is complete stays so: the call that completes a file in memory, which no command makes.
#[test]
fn a_complete_file_stays_so(rt: HostRuntime) {
    is_completed(&rt, rt.alloc(), &FOREIGN, &no_additions(), &FOREIGN);
}

/// Times of the years 1970 to 2099 as seconds.
#[test]
fn times_are_read(rt: HostRuntime) {
    let second = |text: &str| UtcSecond::read(text).map(|read| read.second);
    same_in(&rt, "first", &second("1970-01-01T00:00:00"), &Some(0));
    same_in(
        &rt,
        "last",
        &second("2099-12-31T23:59:59"),
        &Some(4102444799),
    );
    same_in(
        &rt,
        "leap day",
        &second("2000-02-29T12:34:56"),
        &Some(951827696),
    );
}

/// A recording that has become shorter since its packets were listed is not completed.
#[test]
fn a_recording_that_became_shorter_is_told(rt: HostRuntime) {
    let file = recorded(&rt, rt.alloc(), &[LATE]);
    let bytes = file.as_slice();
    let fewer = bytes.get(..24).unwrap_or(&[]);
    let none = no_additions();
    let planned = Completion::plan(rt.alloc(), bytes, fewer, &none);
    let mut completion = planned.expect(&rt, "a plan");
    let mut out = Vec::new(rt.alloc());
    let answer = completion.write(rt.alloc(), &mut out);
    same_in(&rt, "fault", &answer, &Err(CompleteFault::Reader));
}
