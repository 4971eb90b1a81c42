//! The load of a lane over time, in percent.

use crate::canvas::Canvas;
use crate::rows::{LOAD, Lane};
use crate::scale::{LEFT, PARTS, Scale, WIDTH};
use std::alloc::{AllocError, Global};

/// How much of each hundredth of the time the messages of a lane take, in ticks, and for each pixel the number of the
/// first message there that has an error, 0 where none has.
#[derive(Drop)]
pub(crate) struct Load {
    busy: Vec<u64>,
    errors: Vec<u64>,
}

impl Load {
    /// That of a lane without messages; an error where there is no memory.
    pub(crate) fn new(alloc: Global) -> Result<Load, AllocError> {
        Ok(Load {
            busy: vec![in alloc; 0; PARTS]?,
            errors: vec![in alloc; 0; WIDTH as usize]?,
        })
    }

    /// One more message, which takes the time from one tick up to another.
    pub(crate) fn add(&mut self, scale: &Scale, begin: u64, end: u64) {
        for part in scale.part(begin)..=scale.part(end) {
            if let Some(busy) = self.busy.get_mut(part) {
                *busy = busy.saturating_add(scale.shared(part, begin, end));
            }
        }
    }

    /// The message of this number, which begins there, has an error.
    pub(crate) fn fail(&mut self, scale: &Scale, begin: u64, number: u64) {
        if let Some(error) = self.errors.get_mut(scale.pixel(begin))
            && *error == 0
        {
            *error = number;
        }
    }

    /// The load in a hundredth of the time, in thousandths, up to 1000.
    fn share(&self, scale: &Scale, part: usize) -> u64 {
        let Some(busy) = self.busy.get(part) else {
            return 0;
        };
        let share = u128::from(*busy) * 1000 / u128::from(scale.ticks_in(part).max(1));
        u64::try_from(share).unwrap_or(1000).min(1000)
    }

    /// The load up to which it may be drawn, in percent: a round one that none is above.
    pub(crate) fn bound(&self, scale: &Scale) -> u64 {
        let mut greatest = 0u64;
        for part in 0..PARTS {
            greatest = greatest.max(self.share(scale, part));
        }
        for percent in [1u64, 2, 5, 10, 20, 50] {
            if greatest <= 10 * percent {
                return percent;
            }
        }
        100
    }

    /// Draws the load as a curve with its scale up to a bound in percent, and a mark where there are errors.
    pub(crate) fn draw(
        &self,
        canvas: &mut Canvas<'_>,
        lane: &Lane,
        bound: u64,
    ) -> Result<(), AllocError> {
        draw_bound(canvas, lane, bound)?;
        self.draw_curve(canvas, lane, bound)?;
        for (pixel, number) in self.errors.iter().enumerate() {
            if *number != 0 {
                draw_mark(canvas, lane, pixel, *number)?;
            }
        }
        Ok(())
    }

    /// How high the load of a hundredth of the time is drawn, in tenths of a pixel: at least a pixel if there is any.
    fn height(&self, scale: &Scale, part: usize, bound: u64) -> u64 {
        match self.busy.get(part) {
            None | Some(0) => 0,
            Some(_) => {
                let share = self.share(scale, part);
                (share.saturating_mul(LOAD) / bound.max(1)).clamp(10, 10 * LOAD)
            }
        }
    }

    /// Draws the curve.
    fn draw_curve(
        &self,
        canvas: &mut Canvas<'_>,
        lane: &Lane,
        bound: u64,
    ) -> Result<(), AllocError> {
        let base = lane.load.saturating_add(LOAD);
        let mut text = String::new(canvas.alloc);
        write!(
            text,
            "<path fill=\"#cfddf2\" stroke=\"#2a5caa\" stroke-width=\".7\" d=\"M{LEFT} {base}"
        )?;
        let mut last = 0u64;
        for part in 0..PARTS {
            let high = self.height(&canvas.scale, part, bound);
            if high != last {
                put_step(&mut text, base, part, high)?;
                last = high;
            }
        }
        let right = LEFT + WIDTH;
        write!(text, "H{right}V{base}Z\"/>\n")?;
        canvas.picture.put(text.as_str())
    }
}

/// Puts a step of the curve before a hundredth of the time, over a base in pixels, to a height in tenths of a pixel.
fn put_step(text: &mut String, base: u64, part: usize, high: u64) -> Result<(), AllocError> {
    let x = LEFT.saturating_add((part as u64).saturating_mul(WIDTH / PARTS as u64));
    let place = base.saturating_mul(10).saturating_sub(high);
    let (y, part) = (place / 10, place % 10);
    write!(text, "H{x}V{y}.{part}")?;
    Ok(())
}

/// Draws the scale of the load, from 0 up to a bound in percent.
fn draw_bound(canvas: &mut Canvas<'_>, lane: &Lane, bound: u64) -> Result<(), AllocError> {
    let top = lane.load;
    let base = top.saturating_add(LOAD);
    let high = top.saturating_add(7);
    let right = LEFT + WIDTH;
    let text = format!(in canvas.alloc;
        "<text x=\"86\" y=\"{high}\" class=\"r\">{bound} %</text><text x=\"86\" y=\"{base}\" class=\"r\">0</text>
<path d=\"M{LEFT} {top}H{right}M{LEFT} {base}H{right}\" stroke=\"#ddd\" fill=\"none\"/>
"
    )?;
    canvas.picture.put(text.as_str())
}

/// Draws the mark of an error, whose tip is the number of its message.
fn draw_mark(
    canvas: &mut Canvas<'_>,
    lane: &Lane,
    pixel: usize,
    number: u64,
) -> Result<(), AllocError> {
    let x = LEFT.saturating_add(pixel as u64).saturating_sub(1);
    let top = lane.load.saturating_sub(6);
    let text = format!(in canvas.alloc;
        "<rect x=\"{x}\" y=\"{top}\" width=\"3\" height=\"6\" fill=\"#c22\"><title>message {number}</title></rect>\n"
    )?;
    canvas.picture.put(text.as_str())
}
