//! What the report of `bench judge` says of verdicts and texts that no recording and no rules give, worked out by hand.
use crate::looks::equal::{reads, same_in};
use bench_judge::{Judged, Lost, RuleVerdict, count_lost, junit_text};
use judge_rules::{Rule, read_rules};
use test_values::FOREIGN;

/// A line that has marks of XML, a character of two bytes and a byte that is part of none, and two lines with rules.
/// The message is `rx 5 1` without an error, alone in a packet with the overflow flag.
const MARKED_RULES: &[u8] = b"#<&\xC3\xA4\"\xFF>\nexpect any fail\nexpect any ok";

/// As many rules, of which each is missed by that message.
const FOUR_RULES: &[u8] = b"expect any fail\nexpect any fail\nexpect any fail\nexpect any fail";

/// What its packets say.
const FLAGGED: Lost = Lost {
    overflows: 1,
    jumps: 0,
};

const MARKED_REPORT: &str =
    "<?xml version=\"1.0\" encoding=\"UTF-8\"?>\n<testsuite name=\"bench judge\" tests=\"4\" failures=\"1\">\n  \
<properties>\n    <property name=\"messages missing\" value=\"packets with the overflow flag 1, \
jumps of the sequence number 0\"/>\n  </properties>\n  \
<testcase classname=\"line 3\" name=\"expect any ok\"/>\n  \
<testcase classname=\"line 1\" name=\"#&lt;&amp;\u{e4}&quot;?&gt;\"/>\n  \
<testcase classname=\"line 2\" name=\"expect any fail\">\n    \
<failure message=\"selected 1 missed 1\">lost.rules:2: expect any fail\n\
message 1 channel 1 stamp 0: block 0000 gaps 0050, expected fail</failure>\n  </testcase>\n  \
<testcase classname=\"line 4\" name=\"\"/>\n</testsuite>\n";

/// Rules that a text spells, with these verdicts.
fn judged_by<'j>(text: &'j [u8], rules: &'j [Rule], verdicts: &'j [RuleVerdict]) -> Judged<'j> {
    Judged {
        file: b"lost.rules",
        text,
        rules,
        origins: &[],
        skips: &[],
        verdicts,
    }
}

/// A verdict on the rule of a line.
fn verdict_at(line: u64, held: bool) -> RuleVerdict {
    RuleVerdict {
        line,
        selected: 1,
        counted: 0,
        missed: if held { 0 } else { 1 },
        miscounted: false,
        held,
    }
}

/// Names stand by their lines, in whatever order; the header's sum counts its flag.
#[test]
fn a_report_tells_of_messages_that_are_missing(rt: HostRuntime) {
    let alloc = rt.alloc();
    let mut file = FOREIGN;
    file[46] = 0x90;
    file[54] = 0x18;
    let file = file.as_slice();
    let told = count_lost(alloc, file).ok().expect(&rt, "a recording");
    same_in(&rt, "the flag", &told, &FLAGGED);
    let rules = read_rules(alloc, FOUR_RULES).ok().expect(&rt, "rules");
    let verdicts = [
        verdict_at(3, true),
        verdict_at(1, true),
        verdict_at(2, false),
        verdict_at(4, true),
    ];
    let judged = judged_by(MARKED_RULES, rules.as_slice(), &verdicts);
    let report = junit_text(alloc, &file, judged, told);
    let text = report.ok().expect(&rt, "memory");
    reads(&rt, text.as_slice(), MARKED_REPORT);
}
