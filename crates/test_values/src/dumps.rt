//! Value change dumps.

/// What `bench export --vcd` writes of no message.
pub const EMPTY_DUMP: &str = "\
$comment kind: 1 command word, 2 data word, 3 status word; z: the line is idle; \
error: 1 from the start to the end of a message with an error $end\n\
$timescale 100 ns $end\n\
$enddefinitions $end\n\
#0\n\
$dumpvars\n\
$end\n";
