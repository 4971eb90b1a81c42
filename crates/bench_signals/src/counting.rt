//! The figures of signals on the way.
ghost use Rattle.bench_signals.specs.Counting as spec;
ghost use Rattle.bench_signals.specs.Counting.{AreCounted, IsCounted, IsNoted};
ghost use Rattle.bench_signals.specs.Figures.{and_figures, figures_from, is_change, moment_at, moment_of, said_by};
ghost use Rattle.signal_values.specs.Readings.{value_of};
ghost use Rattle.signal_values.specs.Texts.{value_text};
ghost use Rattle.bench_select.specs.Selecting.{selects};
ghost use Rattle.bench_select.specs.Viewed.{Viewed, viewed_behind};
ghost use Rattle.bench_select.specs.declared.selection.Selection.{Selection as SelectionValue};
ghost use Rattle.ch11_layout.specs.Stamps.{kind_of};
ghost use Rattle.signal_dictionary.specs.declared.signals.Signal.{Signal as SignalValue};
ghost use Rattle.std.specs.HashMap.{get};
ghost use Rattle.std.specs.Prelude.{◌≡◌, ◌+◌, ◌*◌, ◌<◌, ◌^◌, ◌∷◌, [], List, Some, true, length, map};
ghost use Rattle.std.specs.Prelude.{nat_eq, option_map, IfOk, OnOk};

use crate::figures::{SignalFigures, Told};
use crate::latest::key_of;
use bench_select::{CHANNELS, Selection, value_in};
use ch11_f1::Messages;
use ch11_layout::{StampKind, View};
use ch11_reader::Packet;
use signal_dictionary::{Kind, Signal};
use signal_values::{Reading, put_reading};
use std::alloc::{AllocError, Global};
use std::collections::{HashMap, HashSet};

/// Room for two values as texts.
#[derive(Drop)]
struct Texts {
    one: Vec<u8>,
    other: Vec<u8>,
}

impl Texts {
    /// Whether the second of two values of a kind is told by another text.
    fn differ(&mut self, kind: &Kind, before: Told, told: Told) -> Result<bool, AllocError>
        ensures { IfOk result (λ changed. changed ≡ is_change kind.now (moment_of before) (moment_of told)) }
    {
        put_value(&mut self.one, kind, before.value)?;
        put_value(&mut self.other, kind, told.value)?;
        Ok(self.one.as_slice() != self.other.as_slice())
    }

    /// The figures before with one value more of a signal in a channel.
    fn count(
        &mut self,
        before: Option<SignalFigures>,
        index: usize,
        kind: &Kind,
        channel: u16,
        told: Told,
    ) -> Result<SignalFigures, AllocError>
        ensures { IfOk result (λ figures. said_by figures
            ≡ spec.counted index channel kind.now (moment_of told) (option_map said_by before)) }
    {
        match before {
            Some(figures) => {
                let changed = self.differ(kind, figures.last, told)?;
                Ok(figures.with(told, changed))
            }
            None => Ok(SignalFigures::begin(index, channel, told)),
        }
    }
}

/// Puts a value in the place of what a text was.
fn put_value(text: &mut Vec<u8>, kind: &Kind, value: Reading) -> Result<(), AllocError>
    ensures { OnOk result (text.new.items ≡ value_text kind.now (value_of value)) }
{
    text.clear();
    put_reading(text, kind, value)
}

/// The figures so far of each signal in each channel that has it, and which channels these are.
#[derive(Drop)]
pub(crate) struct Counting {
    figures: HashMap<u128, SignalFigures>,
    channels: HashSet<u16>,
    texts: Texts,
}

impl Counting {
    /// Nothing was counted yet.
    pub(crate) fn begin(alloc: Global) -> Counting
        ensures { (selection : SelectionValue) (signals : List SignalValue) → AreCounted selection signals [] result }
    {
        Counting {
            figures: HashMap::new(alloc),
            channels: HashSet::new(alloc),
            texts: Texts {
                one: Vec::new(alloc),
                other: Vec::new(alloc),
            },
        }
    }

    /// The figures that stand at a key.
    fn found(&self, key: u128) -> Option<SignalFigures>
        ensures { result ≡ get nat_eq self.now.figures key }
    {
        match self.figures.get(&key) {
            Some(figures) => Some(*figures),
            None => None,
        }
    }

    /// Counts a value of a signal.
    fn note(
        &mut self,
        index: usize,
        kind: &Kind,
        channel: u16,
        told: Told,
    ) -> Result<(), AllocError>
        ensures { OnOk result (IsNoted index channel kind.now (moment_of told) self.old self.new) }
    {
        let key = key_of(index, channel);
        let before = self.found(key);
        let figures = self.texts.count(before, index, kind, channel, told)?;
        self.figures.insert(key, figures)?;
        self.channels.insert(channel)?;
        Ok(())
    }

    /// Counts the value of a signal in a message, if it has one.
    fn note_signal(
        &mut self,
        index: usize,
        signal: &Signal,
        channel: u16,
        view: &View<'_>,
    ) -> Result<(), AllocError>
        ensures { OnOk result (IsCounted index channel signal.now.kind
            (moment_at signal.now channel view.now) self.old self.new) }
    {
        match value_in(signal, channel, view) {
            Some(value) => {
                let told = Told {
                    value,
                    time: view.time(),
                };
                self.note(index, &signal.kind, channel, told)
            }
            None => Ok(()),
        }
    }

    /// Counts the signals of a message.
    fn note_message(
        &mut self,
        signals: &[Signal],
        channel: u16,
        view: &View<'_>,
    ) -> Result<(), AllocError>
        ensures { (selection : SelectionValue) (history : List Viewed)
            → AreCounted selection signals.now history self.old
            → selects selection (length history + 1) channel view.now ≡ true
            → OnOk result (AreCounted selection signals.now ((channel, view.now) ∷ history) self.new) }
    {
        'signals: for index in 0..signals.len() {
            self.note_signal(index, &signals[index], channel, view)?;
        }
        Ok(())
    }

    /// Counts the signals of a message, if it is selected.
    fn note_selected(
        &mut self,
        signals: &[Signal],
        selection: &Selection,
        number: u64,
        channel: u16,
        view: &View<'_>,
    ) -> Result<(), AllocError>
        ensures { (history : List Viewed) → AreCounted selection.now signals.now history self.old
            → number ≡ length history + 1
            → OnOk result (AreCounted selection.now signals.now ((channel, view.now) ∷ history) self.new) }
    {
        let chosen = selection.selects(number, channel, view);
        if chosen {
            self.note_message(signals, channel, view)
        } else {
            Ok(())
        }
    }

    /// Counts the signals of a packet's selected messages.
    pub(crate) fn note_packet(
        &mut self,
        signals: &[Signal],
        selection: &Selection,
        packet: &Packet,
        messages: Messages<'_>,
    ) -> Result<(), AllocError>
        requires { packet.now.before + length messages < 2 ^ 64 }
        ensures { (history : List Viewed) → AreCounted selection.now signals.now history self.old
            → packet.now.before ≡ length history
            → OnOk result (AreCounted selection.now signals.now
            (viewed_behind (kind_of packet.now.header) packet.now.header.channel messages.entry history) self.new) }
    {
        let channel = packet.header.channel;
        let kind = StampKind::of(&packet.header);
        let mut number = packet.before;
        let mut rest = messages;
        'messages: while let Some(seen) = rest.next() {
            number += 1;
            self.note_selected(signals, selection, number, channel, &View::of(kind, &seen))?;
        }
        Ok(())
    }

    /// The figures of these signals, those of a signal by rising channel.
    pub(crate) fn figures_of(
        &self,
        alloc: Global,
        signals: &[Signal],
    ) -> Result<Vec<SignalFigures>, AllocError>
        ensures { (selection : SelectionValue) (history : List Viewed)
            → AreCounted selection signals.now history self.now
            → IfOk result (λ figures. map said_by figures.items
            ≡ figures_from selection history 0 signals.now) }
    {
        let channels = self.channels_of(alloc)?;
        let mut figures = Vec::new(alloc);
        'signals: for index in 0..signals.len() {
            self.push_signal(index, channels.as_slice(), &mut figures)?;
        }
        Ok(figures)
    }

    /// The channels that have figures, rising.
    fn channels_of(&self, alloc: Global) -> Result<Vec<u16>, AllocError>
        ensures { IfOk result (λ channels. channels.items ≡ spec.channels_below self.now 65536) }
    {
        let mut channels = Vec::new(alloc);
        'channels: for channel in 0..CHANNELS {
            self.push_channel(channel as u16, &mut channels)?;
        }
        Ok(channels)
    }

    /// Appends a channel, if it has figures.
    fn push_channel(&self, channel: u16, channels: &mut Vec<u16>) -> Result<(), AllocError>
        ensures { OnOk result (channels.new.items
            ≡ spec.and_channel (spec.has_figures self.now channel) channel channels.old.items) }
    {
        if self.channels.contains(&channel) {
            channels.push(channel)?;
        }
        Ok(())
    }

    /// Appends those of a signal in these channels.
    fn push_signal(
        &self,
        index: usize,
        channels: &[u16],
        figures: &mut Vec<SignalFigures>,
    ) -> Result<(), AllocError>
        ensures { OnOk result (map said_by figures.new.items
            ≡ spec.and_figures_in self.now index channels.now (map said_by figures.old.items)) }
    {
        'channels: for place in 0..channels.len() {
            self.push_figures(index, channels[place], figures)?;
        }
        Ok(())
    }

    /// Appends those of a signal in a channel, where there are any.
    fn push_figures(
        &self,
        index: usize,
        channel: u16,
        figures: &mut Vec<SignalFigures>,
    ) -> Result<(), AllocError>
        ensures { OnOk result (map said_by figures.new.items
            ≡ and_figures (map said_by figures.old.items) (spec.figures_at self.now index channel)) }
    {
        match self.found(key_of(index, channel)) {
            Some(more) => {
                figures.push(more)?;
                Ok(())
            }
            None => Ok(()),
        }
    }
}
