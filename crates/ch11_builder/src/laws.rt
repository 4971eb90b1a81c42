//! Laws of the definitions of this crate, each the contract of a function that does nothing.
ghost use Rattle.ch11_builder.specs.Laws.{CutIsACutting, CuttingIsTheCut, RunGivesThePackets, RunGoesOn};
ghost use Rattle.ch11_builder.specs.Laws.{PushedIsLatest, PacketHasItsLength, HeaderIsReadAgain, MessagesAreReadAgain};

use ch11_f1::body_is_read_again;
use ch11_header::written_is_read;

/// There is one cutting of records whose stamps never fall, and it is the one that is computed.
pub fn cutting_is_one()
    ensures exists { CutIsACutting }
    ensures unique { CuttingIsTheCut }
{}

/// The packets that a builder gives are those of the cutting.
pub fn run_gives_the_packets()
    ensures packets { RunGivesThePackets }
    ensures goes_on { RunGoesOn }
    ensures latest { PushedIsLatest }
{}

/// A packet is read again as what was written.
pub fn packet_is_read_again()
    ensures size { PacketHasItsLength }
    ensures header { HeaderIsReadAgain }
    ensures messages { MessagesAreReadAgain }
{
    written_is_read();
    body_is_read_again();
}
