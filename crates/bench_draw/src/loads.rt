//! The loads of all lanes of a picture, which have one scale.

use crate::canvas::Canvas;
use crate::extent::is_bar;
use crate::load::Load;
use crate::plan::{Plan, Strip};
use crate::rows::Lane;
use crate::scale::{Scale, end_of};
use crate::timed::TimedMessages;
use ch11_f1::Messages;
use ch11_layout::View;
use ch11_reader::Packet;
use std::alloc::{AllocError, Global};

/// The load of each lane of a picture, from the top, where it shows any; the bound in percent up to which they are
/// drawn, and whether all messages were added, as they are in the first pass.
#[derive(Drop)]
pub(crate) struct Loads {
    loads: Vec<Load>,
    bound: u64,
    is_whole: bool,
}

impl Loads {
    /// Those of the lanes of these channels, without messages yet.
    pub(crate) fn of(alloc: Global, plan: &Plan) -> Result<Loads, AllocError> {
        let mut loads = Vec::new(alloc);
        if plan.rows.load {
            for _lane in 0..plan.lanes {
                loads.push(Load::new(alloc)?)?;
            }
        }
        Ok(Loads {
            loads,
            bound: 0,
            is_whole: !plan.rows.load,
        })
    }

    /// Adds the selected ones of a packet's messages of which the time is known, unless all were added in an earlier
    /// pass.
    pub(crate) fn add_messages(
        &mut self,
        canvas: &Canvas<'_>,
        plan: &Plan,
        packet: &Packet,
        messages: Messages<'_>,
    ) {
        let Some(strip) = plan.strip(packet.header.channel) else {
            return;
        };
        if self.is_whole {
            return;
        }
        let mut timed = TimedMessages::of(&canvas.selection, packet, messages);
        'messages: while let Some((number, view)) = timed.next() {
            self.add(&canvas.scale, strip, number, &view);
        }
    }

    /// Adds a message of a channel, with its number in the file, in each lane that has it. An error of one without the
    /// room of a bar is marked there.
    fn add(&mut self, scale: &Scale, strip: &Strip, number: u64, view: &View<'_>) {
        let (begin, end) = (view.stamp(), end_of(view));
        let is_marked = view.has_error() && !is_bar(scale, end.saturating_sub(begin));
        for (place, track) in strip.tracks.iter().enumerate() {
            if track.has(view)
                && let Some(load) = self.loads.get_mut(strip.before.saturating_add(place))
            {
                load.add(scale, begin, end);
                if is_marked {
                    load.fail(scale, begin, number);
                }
            }
        }
    }

    /// All messages were added: the bound of the loads is the greatest of those of all lanes.
    pub(crate) fn end(&mut self, scale: &Scale) {
        if self.is_whole {
            return;
        }
        let mut bound = 0u64;
        for load in self.loads.iter() {
            bound = bound.max(load.bound(scale));
        }
        self.bound = bound;
        self.is_whole = true;
    }

    /// Draws the load of a lane, where the picture has loads.
    pub(crate) fn draw(
        &self,
        canvas: &mut Canvas<'_>,
        place: usize,
        lane: &Lane,
    ) -> Result<(), AllocError> {
        match self.loads.get(place) {
            Some(load) => load.draw(canvas, lane, self.bound),
            None => Ok(()),
        }
    }
}
