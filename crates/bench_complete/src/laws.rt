//! Laws of the definitions of this crate, each the contract of a function that does nothing.
ghost use Rattle.bench_complete.specs.Laws.{CountersStayInOrder, EqualPartsEqualFiles, MergeIsMerged, MergeIsUnique};
ghost use Rattle.bench_complete.specs.Laws.{ReadingStays, StaysComplete};

/// There is one merge of the packets of each channel, however these are mixed, and a merge is its own. Where no
/// channel's counters fall, the merge's don't.
pub fn merge_is_unique()
    ensures unique { MergeIsUnique }
    ensures counters { CountersStayInOrder }
    ensures again { MergeIsMerged }
{}

/// The complete file of a recording can be read, and each channel of it is read as in the recording.
pub fn reading_stays()
    ensures { ReadingStays }
{}

/// A complete file is not refused where nothing is added to it, and completed to its own bytes.
pub fn stays_complete()
    ensures { StaysComplete }
{}

/// Recordings with the same setup records in front, and of each channel the same packets in the same order, are
/// completed to the same file where the same is added.
pub fn equal_parts()
    ensures { EqualPartsEqualFiles }
{}
