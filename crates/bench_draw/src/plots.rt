//! Signals over time: a lane for each signal in each channel that has it, under those of the messages.

use crate::canvas::Canvas;
use crate::fault::DrawFault;
use crate::plot::Plot;
use crate::timed::TimedMessages;
use bench_select::{Selection, value_in};
use bench_signals::{SignalFigures, count_signals};
use bench_watch::Reopen;
use ch11_f1::Messages;
use ch11_layout::View;
use ch11_reader::Packet;
use ch11_stream::{Advance, Packets, StreamFault};
use signal_dictionary::Signal;
use std::alloc::{AllocError, Global};

/// How many lanes of signals a picture has at most.
const MOST: usize = 64;

/// The lanes of signals in the order of their dictionary, those of a signal by rising channel, and where the last of
/// them ends, in pixels from the top.
#[derive(Drop)]
pub(crate) struct Plots<'s> {
    signals: &'s [Signal],
    plots: Vec<Plot>,
    low: u64,
}

impl<'s> Plots<'s> {
    /// The lanes of these signals from a place on, without values yet. The recording is read once, where there are any
    /// signals.
    pub(crate) fn of<S: Reopen>(
        alloc: Global,
        recording: &S,
        selection: &Selection,
        signals: &'s [Signal],
        top: u64,
    ) -> Result<Plots<'s>, DrawFault> {
        let mut plots = Plots {
            signals,
            plots: Vec::new(alloc),
            low: top,
        };
        if signals.is_empty() {
            return Ok(plots);
        }
        let figures = match recording.reopen() {
            Ok(input) => count_signals(alloc, input, selection, signals)?,
            Err(error) => return Err(DrawFault::Opening(error)),
        };
        for figure in figures.iter() {
            plots.add_figures(alloc, figure)?;
        }
        Ok(plots)
    }

    /// The lane of a signal in a channel, where there is room for it.
    fn add_figures(&mut self, alloc: Global, figure: &SignalFigures) -> Result<(), AllocError> {
        if self.plots.len() < MOST {
            let plot = Plot::new(alloc, figure, self.low)?;
            self.low = plot.low();
            self.plots.push(plot)?;
        }
        Ok(())
    }

    /// Where the last lane ends.
    pub(crate) fn low(&self) -> u64 {
        self.low
    }

    /// Draws the lanes, in a pass over the recording for their values, where there are any lanes.
    pub(crate) fn draw<S: Reopen>(
        self,
        canvas: &mut Canvas<'_>,
        recording: &S,
    ) -> Result<(), DrawFault> {
        let mut plots = self;
        if plots.plots.is_empty() {
            return Ok(());
        }
        match recording.reopen() {
            Ok(input) => plots.add_packets(canvas, input)?,
            Err(error) => return Err(DrawFault::Opening(error)),
        }
        for plot in plots.plots.iter() {
            if let Some(signal) = plots.signals.get(plot.index) {
                plot.draw(canvas, signal)?;
            }
        }
        Ok(())
    }

    /// Adds the values of all messages, as the packets of a reader come.
    fn add_packets<R: Advance + Drop>(
        &mut self,
        canvas: &Canvas<'_>,
        input: R,
    ) -> Result<(), StreamFault> {
        let mut packets = Packets::over(canvas.alloc, input)?;
        'packets: for _made in 0..u64::MAX {
            match packets.next() {
                Ok(Some(packet)) => self.add_messages(canvas, &packet, packets.messages()),
                Ok(None) => return Ok(()),
                Err(fault) => return Err(fault),
            }
        }
        Err(StreamFault::Device)
    }

    /// Adds the values of a packet's selected messages of which the time is known.
    fn add_messages(&mut self, canvas: &Canvas<'_>, packet: &Packet, messages: Messages<'_>) {
        let mut timed = TimedMessages::of(&canvas.selection, packet, messages);
        'messages: while let Some((_, view)) = timed.next() {
            self.add(canvas, packet.header.channel, &view);
        }
    }

    /// Adds the values of a message of a channel.
    fn add(&mut self, canvas: &Canvas<'_>, channel: u16, view: &View<'_>) {
        let signals = self.signals;
        for plot in self.plots.iter_mut() {
            if plot.channel == channel
                && let Some(signal) = signals.get(plot.index)
                && let Some(value) = value_in(signal, channel, view)
            {
                plot.add(canvas.scale.pixel(view.stamp()), value);
            }
        }
    }
}
