//! A recording as another recorder writes it.

/// A setup record on channel 0, then a packet of channel 1 with one message, `A rx 5 1 [0001 0002 0003]` at tick 0,
/// behind a secondary header. The first 32 bytes are a lawful prologue.
pub const FOREIGN: [u8; 96] = [
    0x25, 0xEB, 0x00, 0x00, 0x20, 0x00, 0x00, 0x00, 0x06, 0x00, 0x00, 0x00, 0x06, 0x00, 0x00, 0x01,
    0x00, 0x00, 0x00, 0x00, 0x00, 0x00, 0x51, 0xEC, 0x00, 0x00, 0x00, 0x00, 0x41, 0x42, 0x00, 0x00,
    0x25, 0xEB, 0x01, 0x00, 0x40, 0x00, 0x00, 0x00, 0x1C, 0x00, 0x00, 0x00, 0x06, 0x00, 0x80, 0x19,
    0x00, 0x00, 0x00, 0x00, 0x00, 0x00, 0x08, 0x05, 0x00, 0x00, 0x00, 0x00, 0x00, 0x00, 0x00, 0x00,
    0x00, 0x00, 0x00, 0x00, 0x01, 0x00, 0x00, 0x40, 0x00, 0x00, 0x00, 0x00, 0x00, 0x00, 0x00, 0x00,
    0x00, 0x00, 0x50, 0x00, 0x0A, 0x00, 0x23, 0x28, 0x01, 0x00, 0x02, 0x00, 0x03, 0x00, 0x00, 0x28,
];

/// What `bench export --vcd` writes of it: a command at tick 0, three data words, and a status word behind 8.0 µs.
pub const FOREIGN_DUMP: &str = "\
$comment kind: 1 command word, 2 data word, 3 status word; z: the line is idle; \
error: 1 from the start to the end of a message with an error $end\n\
$timescale 100 ns $end\n\
$scope module channel_1 $end\n\
$scope module A $end\n\
$var reg 16 wA1 ch1_A_word $end\n\
$var reg 2 kA1 ch1_A_kind $end\n\
$var reg 5 tA1 ch1_A_terminal $end\n\
$var integer 64 mA1 ch1_A_message $end\n\
$var reg 1 eA1 ch1_A_error $end\n\
$upscope $end\n\
$scope module B $end\n\
$var reg 16 wB1 ch1_B_word $end\n\
$var reg 2 kB1 ch1_B_kind $end\n\
$var reg 5 tB1 ch1_B_terminal $end\n\
$var integer 64 mB1 ch1_B_message $end\n\
$var reg 1 eB1 ch1_B_error $end\n\
$upscope $end\n\
$upscope $end\n\
$enddefinitions $end\n\
#0\n\
$dumpvars\n\
bz wA1\nbz kA1\nbz tA1\nbz mA1\n0eA1\n\
bz wB1\nbz kB1\nbz tB1\nbz mB1\n0eB1\n\
$end\n\
b10100000100011 wA1\nb1 kA1\nb101 tA1\nb1 mA1\n\
#200\n\
b1 wA1\nb10 kA1\n\
#400\n\
b10 wA1\n\
#600\n\
b11 wA1\n\
#800\n\
bz wA1\nbz kA1\nbz tA1\nbz mA1\n\
#860\n\
b10100000000000 wA1\nb11 kA1\nb101 tA1\nb1 mA1\n\
#1060\n\
bz wA1\nbz kA1\nbz tA1\nbz mA1\n";
