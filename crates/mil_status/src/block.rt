//! The bits of a block status word.
use bitflags::{Flag, Flags};

/// A set of bits of a block status word, each at its place; the number has the bit of each set to one.
#[derive(Clone, Copy, Debug, PartialEq, Eq)]
pub struct BlockBits(pub u16);

/// The bits by name.
static FLAGS: [Flag<BlockBits>; 8] = [
    Flag {
        name: "line_b",
        value: BlockBits::LINE_B,
    },
    Flag {
        name: "message_error",
        value: BlockBits::MESSAGE_ERROR,
    },
    Flag {
        name: "terminal_to_terminal",
        value: BlockBits::TERMINAL_TO_TERMINAL,
    },
    Flag {
        name: "format_error",
        value: BlockBits::FORMAT_ERROR,
    },
    Flag {
        name: "response_timeout",
        value: BlockBits::RESPONSE_TIMEOUT,
    },
    Flag {
        name: "word_count_error",
        value: BlockBits::WORD_COUNT_ERROR,
    },
    Flag {
        name: "sync_type_error",
        value: BlockBits::SYNC_TYPE_ERROR,
    },
    Flag {
        name: "invalid_word_error",
        value: BlockBits::INVALID_WORD_ERROR,
    },
];

impl BlockBits {
    /// Bit 13: the message went over line B.
    pub const LINE_B: BlockBits = BlockBits(8192);
    /// Bit 12: the summary of the errors of a message.
    pub const MESSAGE_ERROR: BlockBits = BlockBits(4096);
    /// Bit 11: a transfer between terminals, which has two commands.
    pub const TERMINAL_TO_TERMINAL: BlockBits = BlockBits(2048);
    /// Bit 10: a format error: a word that does not follow the one before at once, where it should.
    pub const FORMAT_ERROR: BlockBits = BlockBits(1024);
    /// Bit 9: a reply that did not come, or came too late.
    pub const RESPONSE_TIMEOUT: BlockBits = BlockBits(512);
    /// Bit 5: another number of words than due.
    pub const WORD_COUNT_ERROR: BlockBits = BlockBits(32);
    /// Bit 4: a sound word with the wrong sync for its place.
    pub const SYNC_TYPE_ERROR: BlockBits = BlockBits(16);
    /// Bit 3: a word that is not sound.
    pub const INVALID_WORD_ERROR: BlockBits = BlockBits(8);
}

impl Flags for BlockBits {
    ghost use Rattle.mil_status.specs.Block.{block_bits};
    ghost use Rattle.std.specs.Prelude.{⊤};

    type Bits = u16;

    ghost exact = { ⊤ };

    ghost table = { block_bits };

    ghost set_of = { λ s. s.0 };

    fn flags<'a>() -> &'a [Flag<BlockBits>] {
        &FLAGS
    }

    fn bits(&self) -> u16 {
        self.0
    }

    fn from_bits_retain(bits: u16) -> BlockBits {
        BlockBits(bits)
    }
}
