//! A recording as a value change dump (IEEE 1364-2001 section 18).
ghost use Rattle.bench_export.specs.Changes.{AreInOrder, changes_among, changes_in};
ghost use Rattle.bench_export.specs.Choosing as choosing;
ghost use Rattle.bench_export.specs.Merging.{IsLag, IsSurvey, least_tick};
ghost use Rattle.bench_export.specs.Showing.{ReadAsShown};
ghost use Rattle.bench_export.specs.Streaming.{Exports};
ghost use Rattle.bench_export.specs.Waves.{ArePresent, GetsDump, changes_text, first_tick, head_text};
ghost use Rattle.bench_export.specs.declared.changes.Change.{Change as Item};
ghost use Rattle.ch11_layout.specs.Stamps.{kind_of};
ghost use Rattle.ch11_reader.specs.Recording.{packets_in};
ghost use Rattle.ch11_reader.specs.declared.error.Refusal.{Refusal};
ghost use Rattle.std.specs.Io.KnownBytes.{Appends};
ghost use Rattle.std.specs.Prelude.{◌≡◌, ◌+◌, ◌<◌, ◌^◌, ◌||◌, ◌++◌, [], ℕ, List, false, length, Some, Err, IfOk, OnOk};

use crate::changes::Change;
use crate::choosing::selects_among;
use crate::fault::ExportFault;
use crate::heads::put_head;
use crate::merging::Merge;
use crate::survey::Survey;
use bench_select::{CHANNELS, Selection};
use ch11_reader::Packet;
use ch11_stream::{Advance, Packets, StreamFault};
use std::alloc::Global;
use std::io::Write;
use text_lines::WriteFault;

/// Writes the selected messages of a recording as a value change dump, in units of 0.1 µs: for each channel and line
/// the word on the line, what it is (1 a command, 2 data, 3 a status), its terminal, and the number of its message,
/// counted from 1 over the file, which are z where the line is idle, and whether a message with an error is on it. A
/// word takes 200 units. Two readers give the recording, one after the other; the answer is whether any message was
/// selected. Of the first it is found which channels there are, and how far changes lie before others in front of them:
/// where it can't be read, the first fault is the answer, K1 to K5, N2 or F1 to F3, and nothing is written. The changes
/// are those of the second, each kept, in 48 bytes and at times twice them, until no later one of the first can be
/// before it. Where the file changed in between, the writer may have got changes in front of a fault of the second, and
/// they may be out of order.
pub fn export_waves<R: Advance + Drop, S: Advance + Drop, W: Write>(
    alloc: Global,
    first: R,
    second: S,
    selection: &Selection,
    out: &mut W,
) -> Result<bool, ExportFault>
    ensures written { (file : List ℕ) → R.remaining first ≡ Some file → S.remaining second ≡ Some file
        → Exports (λ ps selected. GetsDump (W.contents out.old) (W.contents out.new) selection.now ps
        × (selected ≡ choosing.selects_any selection.now ps)) result file }
    ensures refused { (file : List ℕ) (r : Refusal) → R.remaining first ≡ Some file → packets_in file ≡ Err r
        → out.new ≡ out.old }
{
    let found = overview_of(alloc, first, selection)?;
    write_head(alloc, &found.survey, out)?;
    let told = found.survey.first();
    write_merged(alloc, second, selection, told, found.survey.lag, out)?;
    Ok(found.selected)
}

/// Who reads a dump and keeps of each signal the value that was told last has behind each change, of each line, all
/// that the line shows there.
pub fn read_as_shown()
    ensures { ReadAsShown }
{}

/// Writes what stands in front of the changes.
fn write_head<W: Write>(alloc: Global, survey: &Survey, out: &mut W) -> Result<(), WriteFault>
    requires { length survey.now.marks.items ≡ CHANNELS }
    ensures { OnOk result ((given : List Item) → ArePresent survey.now.marks.items given
        → least_tick survey.now.least ≡ first_tick given
        → Appends (W.contents out.old) (W.contents out.new) (head_text given)) }
{
    let mut head = Vec::new(alloc);
    put_head(&mut head, &survey.marks, survey.first())?;
    out.write_all(head.as_slice())?;
    Ok(())
}

/// What a pass finds before any change is written.
#[derive(Drop)]
struct Overview {
    /// What is known of the changes.
    survey: Survey,
    /// Whether any message is selected.
    selected: bool,
}

/// What is known of the changes of all selected messages, and whether there are any.
fn overview_of<R: Advance + Drop>(
    alloc: Global,
    input: R,
    selection: &Selection,
) -> Result<Overview, ExportFault>
    ensures many { IfOk result (λ found. length found.survey.marks.items ≡ CHANNELS) }
    ensures found { (file : List ℕ) → R.remaining input ≡ Some file
        → Exports (λ ps found. IsSurvey found.survey.marks.items found.survey.least found.survey.newest
        found.survey.lag (changes_in selection.now ps)
        × (found.selected ≡ choosing.selects_any selection.now ps)) result file }
{
    let Ok(mut packets) = Packets::over(alloc, input) else {
        return Err(ExportFault::Reading(StreamFault::Memory));
    };
    let mut found = Overview::of_none(alloc)?;
    let mut room = Vec::new(alloc);
    'packets: for _made in 0..u64::MAX {
        match packets.next() {
            Ok(Some(packet)) => found.note_packet(&mut room, selection, &packets, &packet)?,
            Ok(None) => return Ok(found),
            Err(fault) => return Err(ExportFault::Reading(fault)),
        }
    }
    Err(ExportFault::Reading(StreamFault::Device))
}

impl Overview {
    /// What is found in no packet.
    fn of_none(alloc: Global) -> Result<Overview, WriteFault>
        ensures many { IfOk result (λ found. length found.survey.marks.items ≡ CHANNELS) }
        ensures none { IfOk result (λ found. IsSurvey found.survey.marks.items found.survey.least
            found.survey.newest found.survey.lag []) }
        ensures selected { IfOk result (λ found. found.selected ≡ false) }
    {
        Ok(Overview {
            survey: Survey::of_none(alloc)?,
            selected: false,
        })
    }

    /// Notes the packet that was read last.
    fn note_packet<R: Advance>(
        &mut self,
        room: &mut Vec<Change>,
        selection: &Selection,
        packets: &Packets<R>,
        packet: &Packet,
    ) -> Result<(), WriteFault>
        requires few { packet.now.before + length packets.now.given < 2 ^ 64 }
        requires many { length self.old.survey.marks.items ≡ CHANNELS }
        ensures many { OnOk result (length self.new.survey.marks.items ≡ CHANNELS) }
        ensures noted { OnOk result ((cs : List Item)
            → IsSurvey self.old.survey.marks.items self.old.survey.least self.old.survey.newest self.old.survey.lag cs
            → IsSurvey self.new.survey.marks.items self.new.survey.least self.new.survey.newest self.new.survey.lag
            (cs ++ changes_among selection.now
            (kind_of packet.now.header) packet.now.before packet.now.header.channel packets.now.given)) }
        ensures selected { OnOk result
            (self.new.selected ≡ (self.old.selected
            || choosing.selects_among selection.now
            (kind_of packet.now.header) packet.now.before packet.now.header.channel packets.now.given)) }
    {
        self.survey
            .note_packet(room, selection, packet, packets.messages())?;
        self.selected = self.selected || selects_among(selection, packet, packets.messages());
        Ok(())
    }
}

/// Writes the changes of all selected messages behind a time that was told, by the lag that they have.
fn write_merged<R: Advance + Drop, W: Write>(
    alloc: Global,
    input: R,
    selection: &Selection,
    told: u128,
    lag: u128,
    out: &mut W,
) -> Result<(), ExportFault>
    ensures { (file : List ℕ) → R.remaining input ≡ Some file
        → Exports (λ ps done. IsLag lag (changes_in selection.now ps)
        → ((given : List Item) × AreInOrder (changes_in selection.now ps) given
        × Appends (W.contents out.old) (W.contents out.new) (changes_text told [] given))) result file }
{
    let Ok(mut packets) = Packets::over(alloc, input) else {
        return Err(ExportFault::Reading(StreamFault::Memory));
    };
    let mut merge = Merge::behind(alloc, told, lag);
    'packets: for _made in 0..u64::MAX {
        match packets.next() {
            Ok(Some(packet)) => {
                merge.take_packet(selection, &packet, packets.messages(), out)?;
            }
            Ok(None) => {
                merge.write_rest(out)?;
                return Ok(());
            }
            Err(fault) => return Err(ExportFault::Reading(fault)),
        }
    }
    Err(ExportFault::Reading(StreamFault::Device))
}
