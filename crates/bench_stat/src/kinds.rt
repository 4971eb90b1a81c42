//! The packets of a recording by their type.
ghost use Rattle.bench_stat.specs.KindText as text;
ghost use Rattle.bench_stat.specs.Kinds as spec;
ghost use Rattle.bench_stat.specs.Kinds.{AreKinds};
ghost use Rattle.ch11_header.specs.declared.header.Header.{Header as HeaderValue};
ghost use Rattle.bench_stat.specs.Figures.{headers};
ghost use Rattle.ch11_stream.specs.Folding.{FoldsPackets};
ghost use Rattle.std.specs.Io.KnownBytes.{Appends};
ghost use Rattle.std.specs.Prelude.{◌≡◌, ◌++◌, ◌∷◌, [], ℕ, List, Some, length, IfOk, OnOk};

use crate::counts::more;
use ch11_header::Header;
use ch11_stream::{Advance, Packets, StreamFault};
use std::alloc::{AllocError, Global};
use std::io;
use std::io::Write;

/// How many types of packets there can be.
const KINDS: usize = 256;

/// The packets of a type.
#[derive(Clone, Copy, Debug, PartialEq, Eq)]
pub struct KindFigures {
    /// How many there are.
    pub packets: u64,
    /// How many bytes they take in all, with their headers and their filler.
    pub bytes: u64,
}

impl KindFigures {
    /// No packet.
    fn none() -> KindFigures
        ensures { result ≡ spec.no_packets }
    {
        KindFigures {
            packets: 0,
            bytes: 0,
        }
    }

    /// One more packet of so many bytes.
    fn with(self, size: u32) -> KindFigures
        ensures { result ≡ spec.with_packet size self }
    {
        KindFigures {
            packets: more(self.packets, 1),
            bytes: more(self.bytes, u64::from(size)),
        }
    }
}

/// One more packet, which has this header, among those of its type.
fn note_kind(kinds: &mut [KindFigures], header: &Header)
    requires { length kinds.old ≡ KINDS }
    ensures { (hs : List HeaderValue) → AreKinds hs kinds.old → AreKinds (hs ++ header.now ∷ []) kinds.new }
{
    let place = usize::from(header.kind);
    kinds[place] = kinds[place].with(header.packet_length);
}

/// The packets by their type, 0 to 255, of all bytes that a reader has left, in one pass over them, in memory for the
/// largest packet of messages or of time. A recording that can't be read is refused with its first fault, K1 to K5, N2
/// or F1 to F3; want of memory and the reader's failure are the others.
pub fn read_kinds<R: Advance + Drop>(
    alloc: Global,
    input: R,
) -> Result<Vec<KindFigures>, StreamFault>
    ensures { (file : List ℕ) → R.remaining input ≡ Some file
        → FoldsPackets (λ ps kinds. AreKinds (headers ps) kinds.items) result file }
{
    let mut packets = Packets::over(alloc, input)?;
    let mut kinds = no_kinds(alloc)?;
    'packets: for _made in 0..u64::MAX {
        match packets.next() {
            Ok(Some(packet)) => note_kind(kinds.as_mut_slice(), &packet.header),
            Ok(None) => return Ok(kinds),
            Err(fault) => return Err(fault),
        }
    }
    Err(StreamFault::Device)
}

/// No packet of any type.
fn no_kinds(alloc: Global) -> Result<Vec<KindFigures>, AllocError>
    ensures { IfOk result (λ kinds. AreKinds [] kinds.items) }
{
    let kinds = vec![in alloc; KindFigures::none(); KINDS]?;
    Ok(kinds)
}

/// Writes for each type of which there are packets how many there are, and how many bytes: as lines, or as rows of
/// comma-separated values behind an empty line.
#[tactic(auto, unfolding(crate::specs::KindText::kinds_text))]
pub fn print_kinds<W: Write>(out: &mut W, kinds: &[KindFigures], rows: bool) -> io::Result<()>
    ensures { OnOk result (Appends (W.contents out.old) (W.contents out.new) (text.kinds_text rows kinds.now)) }
{
    print_head(out, rows)?;
    for kind in 0..kinds.len() {
        print_kind(out, kind, &kinds[kind], rows)?;
    }
    Ok(())
}

/// Writes what stands in front of the types.
fn print_head<W: Write>(out: &mut W, rows: bool) -> io::Result<()>
    ensures { OnOk result (Appends (W.contents out.old) (W.contents out.new) (text.head_of rows)) }
{
    if rows {
        writeln!(out, "\ntype,packets,bytes")
    } else {
        writeln!(out, "packets by type")
    }
}

/// Writes how many packets of a type there are, where there are any.
fn print_kind<W: Write>(
    out: &mut W,
    kind: usize,
    figures: &KindFigures,
    rows: bool,
) -> io::Result<()>
    ensures { OnOk result (Appends (W.contents out.old) (W.contents out.new)
        (text.kind_text rows kind figures.now)) }
{
    let (packets, bytes) = (figures.packets, figures.bytes);
    if packets == 0 {
        return Ok(());
    }
    if rows {
        writeln!(out, "{kind:02X},{packets},{bytes}")
    } else {
        writeln!(out, "  type {kind:02X}   {packets} packets, {bytes} bytes")
    }
}
