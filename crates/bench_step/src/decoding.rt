//! Messages as people read them, one at a time.
ghost use Rattle.bench_decode.specs.Waiting.{no_lines};
ghost use Rattle.bench_decode.specs.declared.line.Shown.TheVariants.{Plain};
ghost use Rattle.bench_step.specs.Session.{message_text, told_text};
ghost use Rattle.std.specs.Io.KnownBytes.{Appends};
ghost use Rattle.std.specs.Prelude.{◌≡◌, OnOk};

use crate::manners::Manner;
use crate::replies::Reply;
use bench_decode::{Place, TextLine, write_message};
use bench_places::{message_numbered, number_in_channel};
use ch11_reader::Index;
use std::io;
use std::io::Write;

/// Prints the message of a number, counted from 1 over the file; nothing where there is no such message. The lines
/// that are decoded are plain, and none waits, before it and behind it.
#[tactic(auto, using(crate::proofs::Telling::absent, crate::proofs::Telling::absent_is))]
fn print_message<W: Write>(
    out: &mut W,
    decoded: &mut TextLine,
    index: &Index<'_>,
    number: u64,
) -> io::Result<()>
    requires { decoded.old ≡ no_lines Plain }
    ensures printed { OnOk result (Appends (W.contents out.old) (W.contents out.new)
        (message_text number index.now)) }
    ensures waits { OnOk result (decoded.new ≡ no_lines Plain) }
{
    let Some((channel, view)) = message_numbered(index, number) else {
        return Ok(());
    };
    let place = Place {
        number,
        channel,
        in_channel: number_in_channel(index, channel, number),
    };
    write_message(decoded, out, &place, &view)?;
    decoded.finish(out)?;
    Ok(())
}

/// Prints the message that is shown behind a reply, if one is: the one that was asked for, and behind a move the one at
/// its place, where lines are typed.
pub(crate) fn print_told<W: Write>(
    out: &mut W,
    decoded: &mut TextLine,
    manner: Manner,
    reply: &Reply,
    index: &Index<'_>,
) -> io::Result<()>
    requires { decoded.old ≡ no_lines Plain }
    ensures printed { OnOk result (Appends (W.contents out.old) (W.contents out.new)
        (told_text manner reply.now index.now)) }
    ensures waits { OnOk result (decoded.new ≡ no_lines Plain) }
{
    match (*reply, manner) {
        (Reply::Message(number), _) => print_message(out, decoded, index, number),
        (Reply::At(place), Manner::Typed) => print_message(out, decoded, index, place),
        _ => Ok(()),
    }
}
