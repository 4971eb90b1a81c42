//! A signal over time: what it was within each pixel of the time, and its lane.

use crate::bands::put_bands;
use crate::canvas::Canvas;
use crate::frame::put_escaped;
use crate::range::Range;
use crate::scale::{LEFT, WIDTH};
use bench_signals::SignalFigures;
use signal_dictionary::{Kind, Signal};
use signal_values::{Reading, put_reading};
use std::alloc::{AllocError, Global};
use std::str;

/// How high the place of a signal's name is.
const HEAD: u64 = 20;

/// How high numbers are drawn.
const NUMBERS: u64 = 48;

/// The same in tenths of a pixel.
const HEIGHTS: u32 = 10 * NUMBERS as u32;

/// How high names are drawn.
pub(crate) const BAND: u64 = 18;

/// What stands between lanes.
const BETWEEN: u64 = 12;

/// How many bytes of a number stand beside the scale at most.
const SHOWN: usize = 12;

/// The first, the least, the greatest and the last of some values, as heights in tenths of a pixel, or as numbers that
/// have names.
#[derive(Clone, Copy)]
pub(crate) struct Span {
    first: u32,
    least: u32,
    greatest: u32,
    pub(crate) last: u32,
}

/// What a signal was within a pixel of the time: its values there, if any, and whether it had none behind them.
#[derive(Clone, Copy)]
pub(crate) struct Column {
    pub(crate) span: Option<Span>,
    pub(crate) ended: bool,
}

impl Column {
    /// With one more value.
    fn with(self, value: u32) -> Column {
        let span = match self.span {
            None => Span {
                first: value,
                least: value,
                greatest: value,
                last: value,
            },
            Some(span) => Span {
                first: span.first,
                least: span.least.min(value),
                greatest: span.greatest.max(value),
                last: value,
            },
        };
        Column {
            span: Some(span),
            ended: false,
        }
    }

    /// Behind a message in which the signal has no value.
    fn without(self) -> Column {
        Column {
            span: self.span,
            ended: true,
        }
    }
}

/// A signal in a channel on the way into the picture: its place in the dictionary, the channel, the height of its lane,
/// the numbers from the least to the greatest, which one with names has not, and what it was within each pixel.
#[derive(Drop)]
pub(crate) struct Plot {
    pub(crate) index: usize,
    pub(crate) channel: u16,
    top: u64,
    high: u64,
    range: Option<Range>,
    columns: Vec<Column>,
}

impl Plot {
    /// The lane of a signal with these figures from a place on, without values yet.
    pub(crate) fn new(alloc: Global, figure: &SignalFigures, top: u64) -> Result<Plot, AllocError> {
        let mut columns = Vec::new(alloc);
        for _pixel in 0..WIDTH {
            columns.push(Column {
                span: None,
                ended: false,
            })?;
        }
        let range = Range::of(figure);
        Ok(Plot {
            index: figure.signal,
            channel: figure.channel,
            top: top.saturating_add(HEAD),
            high: if range.is_some() { NUMBERS } else { BAND },
            range,
            columns,
        })
    }

    /// Where the lane ends.
    pub(crate) fn low(&self) -> u64 {
        self.base().saturating_add(BETWEEN)
    }

    /// Where the values end.
    fn base(&self) -> u64 {
        self.top.saturating_add(self.high)
    }

    /// One more value, within a pixel of the time.
    pub(crate) fn add(&mut self, pixel: usize, value: Reading) {
        let place = self.place_of(value);
        if let Some(column) = self.columns.get_mut(pixel) {
            *column = match place {
                Some(place) => column.with(place),
                None => column.without(),
            };
        }
    }

    /// How high a number is drawn, or which number has a name.
    fn place_of(&self, value: Reading) -> Option<u32> {
        match value {
            Reading::Nothing => None,
            Reading::Named(number) => Some(number),
            Reading::Number(amount) => {
                let range = self.range?;
                Some(range.share(amount, HEIGHTS))
            }
        }
    }

    /// Draws the lane.
    pub(crate) fn draw(&self, canvas: &mut Canvas<'_>, signal: &Signal) -> Result<(), AllocError> {
        self.draw_name(canvas, signal)?;
        match &self.range {
            Some(range) => {
                self.draw_scale(canvas, &signal.kind, range)?;
                self.draw_steps(canvas)
            }
            None => put_bands(canvas, &signal.kind, self.top, self.columns.as_slice()),
        }
    }

    /// Draws the name of the signal with its unit and its channel.
    fn draw_name(&self, canvas: &mut Canvas<'_>, signal: &Signal) -> Result<(), AllocError> {
        let y = self.top.saturating_sub(6);
        let channel = self.channel;
        let mut text = String::new(canvas.alloc);
        write!(text, "<text x=\"{LEFT}\" y=\"{y}\">")?;
        text.push_str(str::from_utf8(signal.name.bytes.as_slice()).unwrap_or(""))?;
        if !signal.unit.bytes.is_empty() {
            text.push_str(" (")?;
            put_escaped(
                &mut text,
                str::from_utf8(signal.unit.bytes.as_slice()).unwrap_or(""),
            )?;
            text.push(')')?;
        }
        write!(text, ", channel {channel}</text>\n")?;
        canvas.picture.put(text.as_str())
    }

    /// Draws the least and the greatest number, and a line at the height of each.
    fn draw_scale(
        &self,
        canvas: &mut Canvas<'_>,
        kind: &Kind,
        range: &Range,
    ) -> Result<(), AllocError> {
        let (top, base, right) = (self.top, self.base(), LEFT + WIDTH);
        let mut text = String::new(canvas.alloc);
        write!(
            text,
            "<path d=\"M{LEFT} {top}H{right}M{LEFT} {base}H{right}\" stroke=\"#ddd\" fill=\"none\"/>\n"
        )?;
        if range.is_point() {
            let middle = top.saturating_add(NUMBERS / 2).saturating_add(3);
            put_bound(
                canvas.alloc,
                &mut text,
                kind,
                middle,
                Reading::Number(range.least),
            )?;
        } else {
            let high = top.saturating_add(7);
            put_bound(
                canvas.alloc,
                &mut text,
                kind,
                high,
                Reading::Number(range.greatest),
            )?;
            put_bound(
                canvas.alloc,
                &mut text,
                kind,
                base,
                Reading::Number(range.least),
            )?;
        }
        canvas.picture.put(text.as_str())
    }

    /// Draws the numbers as steps: each stands until the next.
    fn draw_steps(&self, canvas: &mut Canvas<'_>) -> Result<(), AllocError> {
        let (base, right) = (self.base(), LEFT + WIDTH);
        let mut text = String::new(canvas.alloc);
        text.push_str("<path fill=\"none\" stroke=\"#8a2f6b\" stroke-width=\"1.2\" d=\"")?;
        let mut now = None;
        for (pixel, column) in self.columns.iter().enumerate() {
            let x = LEFT.saturating_add(pixel as u64);
            now = put_column(&mut text, base, x, now, *column)?;
        }
        if now.is_some() {
            write!(text, "H{right}")?;
        }
        text.push_str("\"/>\n")?;
        canvas.picture.put(text.as_str())
    }
}

/// Puts a number beside the scale, cut where it is long.
fn put_bound(
    alloc: Global,
    text: &mut String,
    kind: &Kind,
    y: u64,
    value: Reading,
) -> Result<(), AllocError> {
    let mut told = Vec::new(alloc);
    put_reading(&mut told, kind, value)?;
    let shown = told.as_slice();
    let is_long = shown.len() > SHOWN;
    let (front, _) = shown.split_at(shown.len().min(SHOWN));
    write!(text, "<text x=\"86\" y=\"{y}\" class=\"r\">")?;
    text.push_str(str::from_utf8(front).unwrap_or(""))?;
    if is_long {
        text.push_str("..")?;
    }
    text.push_str("</text>\n")
}

/// Puts the step of a path to a height, over a base in pixels.
fn put_height(text: &mut String, base: u64, height: u32) -> Result<(), AllocError> {
    let y = base.saturating_mul(10).saturating_sub(u64::from(height));
    let (whole, part) = (y / 10, y % 10);
    write!(text, "{whole}.{part}")?;
    Ok(())
}

/// Puts what a signal was within a pixel, in front of which it stood at a height, if at any; answers where it stands
/// behind it.
fn put_column(
    text: &mut String,
    base: u64,
    x: u64,
    before: Option<u32>,
    column: Column,
) -> Result<Option<u32>, AllocError> {
    let Some(span) = column.span else {
        if column.ended && before.is_some() {
            write!(text, "H{x}")?;
        }
        return Ok(if column.ended { None } else { before });
    };
    if before != Some(span.least) || before != Some(span.greatest) {
        if before.is_some() {
            write!(text, "H{x}V")?;
        } else {
            write!(text, "M{x} ")?;
        }
        put_span(text, base, span)?;
    }
    Ok(if column.ended { None } else { Some(span.last) })
}

/// Puts the heights of some values: the first, the bounds where they differ, and the last.
fn put_span(text: &mut String, base: u64, span: Span) -> Result<(), AllocError> {
    put_height(text, base, span.first)?;
    if span.least != span.greatest {
        for height in [span.least, span.greatest, span.last] {
            text.push('V')?;
            put_height(text, base, height)?;
        }
    }
    Ok(())
}
