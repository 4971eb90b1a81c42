//! A page on the way: the lines of its messages.
ghost use Rattle.bench_decode.specs.ByTime.{Told};
ghost use Rattle.bench_select.specs.Viewed.{Viewed};
ghost use Rattle.bench_select.specs.declared.selection.Selection.{Selection as Asks};
ghost use Rattle.bench_view.specs.Filling.{AreFilled, HasNone, HasRoom, IsFilled};
ghost use Rattle.bench_view.specs.Pages.{end_text};
ghost use Rattle.std.specs.Prelude.{◌≡◌, ◌+◌, ◌<◌, ◌≤◌, ◌++◌, ◌∷◌, [], ℕ, List, true, false, IfOk, OnOk, length};

use crate::line::put_line;
use crate::page::Asked;
use bench_decode::{Numbers, Place};
use ch11_layout::View;
use itoa::Buffer;
use signal_dictionary::Signal;
use std::alloc::{AllocError, Global};

/// How many messages a page has at most.
pub const MOST_MESSAGES: u64 = 200_000;

/// How many bytes the lines of its messages have at most.
pub const MOST_BYTES: usize = 38_000_000;

/// A page on the way.
#[derive(Drop)]
pub(crate) struct Filling {
    pub(crate) text: Vec<u8>,
    line: Vec<u8>,
    pub(crate) numbers: Numbers,
    /// How many messages were chosen.
    pub(crate) chosen: u64,
    /// How many of them have a line.
    pub(crate) shown: u64,
    /// How many bytes these lines have.
    pub(crate) size: usize,
    /// Whether a chosen message had no room.
    pub(crate) full: bool,
}

/// Puts the count of the messages that a page has, and of those that were chosen.
pub(crate) fn put_end(text: &mut Vec<u8>, shown: u64, chosen: u64) -> Result<(), AllocError>
    ensures { OnOk result (text.new.items ≡ text.old.items ++ end_text shown chosen) }
{
    let mut buffer = Buffer::new();
    text.extend_from_slice(b"#end ")?;
    text.extend_from_slice(buffer.format(shown).as_bytes())?;
    text.push(b' ')?;
    text.extend_from_slice(buffer.format(chosen).as_bytes())?;
    text.push(b'\n')?;
    Ok(())
}

/// Whether a page with so many messages, of so many bytes, has room for one of so many more.
fn has_room(shown: u64, size: usize, line: usize) -> bool
    ensures room { result ≡ true → HasRoom shown size line }
    ensures none { result ≡ false → HasNone shown size line }
{
    shown < MOST_MESSAGES && size <= MOST_BYTES && line <= MOST_BYTES - size
}

impl Filling {
    /// A page with what stands in front of its data.
    pub(crate) fn begin(alloc: Global, front: &[u8]) -> Result<Filling, AllocError>
        ensures { IfOk result (λ f. (signals : List Signal) → (s : Asks)
            → AreFilled front.now signals s [] f) }
    {
        let mut text = Vec::new(alloc);
        text.extend_from_slice(front)?;
        Ok(Filling {
            text,
            line: Vec::new(alloc),
            numbers: Numbers::new(alloc)?,
            chosen: 0,
            shown: 0,
            size: 0,
            full: false,
        })
    }

    /// The next chosen message, of so many with it: its line, if there is room for it.
    fn put(
        &mut self,
        signals: &[Signal],
        place: &Place,
        view: &View<'_>,
        chosen: u64,
    ) -> Result<(), AllocError>
        requires { chosen ≡ self.old.chosen + 1 }
        ensures filled { (front : List ℕ) (messages : List Told) (t : Told)
            → IsFilled front signals.now messages self.old → t.number ≡ place.now.number
            → t.channel ≡ place.now.channel → t.in_channel ≡ place.now.in_channel → t.message ≡ view.now
            → OnOk result (IsFilled front signals.now (messages ++ t ∷ []) self.new) }
        ensures chosen { OnOk result (self.new.chosen ≡ chosen) }
        ensures numbers { self.new.numbers ≡ self.old.numbers }
    {
        self.chosen = chosen;
        if self.full {
            return Ok(());
        }
        self.line.clear();
        put_line(&mut self.line, signals, place, view)?;
        let line = self.line.as_slice();
        let size = line.len();
        if !has_room(self.shown, self.size, size) {
            self.full = true;
            return Ok(());
        }
        self.text.extend_from_slice(line)?;
        self.shown += 1;
        self.size += size;
        Ok(())
    }

    /// The next message of the file, which is of this number and channel, and whose stamp is of this kind.
    pub(crate) fn take(
        &mut self,
        asked: &Asked<'_>,
        number: u64,
        channel: u16,
        view: &View<'_>,
    ) -> Result<(), AllocError>
        requires { self.old.chosen < number }
        ensures filled { (front : List ℕ) (history : List Viewed)
            → AreFilled front asked.now.signals.now asked.now.selection history self.old
            → number ≡ length history + 1
            → OnOk result (AreFilled front asked.now.signals.now asked.now.selection
            ((channel, view.now) ∷ history) self.new) }
        ensures few { OnOk result (self.new.chosen ≤ number) }
    {
        let place = self.numbers.place(number, channel);
        let chosen = self.chosen + 1;
        if asked.selection.selects(number, channel, view) {
            self.put(asked.signals, &place, view, chosen)?;
        }
        Ok(())
    }
}
