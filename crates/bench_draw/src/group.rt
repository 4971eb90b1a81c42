//! Channels that are drawn in one pass.

use crate::canvas::Canvas;
use crate::frame::{name_of_channel, name_of_lane};
use crate::lanes::{Lanes, draw_lanes};
use crate::loads::Loads;
use crate::plan::{Plan, Strip};
use crate::rows::Rows;
use bench_names::ChannelNames;
use ch11_f1::Messages;
use ch11_layout::{StampKind, View};
use ch11_reader::Packet;
use std::alloc::{AllocError, Global};

/// Channels that are drawn in one pass, in rising order, how many bytes of elements the picture has room for, and how
/// many those of the channels have. What there is no room for is left out in the order of the channels: so where the
/// elements would have more bytes than there is room for, the last channels wait for a later pass.
#[derive(Drop)]
pub(crate) struct Group {
    lanes: Vec<Lanes>,
    room: usize,
    size: usize,
}

impl Group {
    /// The channels from a place on, with no message yet.
    pub(crate) fn of(
        canvas: &Canvas<'_>,
        plan: &Plan,
        names: &ChannelNames<'_>,
        first: usize,
    ) -> Result<Group, AllocError> {
        let alloc = canvas.alloc;
        let mut group = Group {
            lanes: Vec::new(alloc),
            room: canvas.picture.room(),
            size: 0,
        };
        for (place, strip) in plan.strips.iter().enumerate() {
            // (behind one that waits all wait)
            if place == first.saturating_add(group.lanes.len()) {
                group.add(alloc, &plan.rows, names, strip)?;
            }
        }
        Ok(group)
    }

    /// One more channel, with the elements of its names.
    fn add(
        &mut self,
        alloc: Global,
        rows: &Rows,
        names: &ChannelNames<'_>,
        strip: &Strip,
    ) -> Result<(), AllocError> {
        let at = self.lanes.len();
        self.lanes.push(Lanes::new(alloc, rows, strip)?)?;
        let name = names.name(strip.channel);
        self.keep(at, name_of_channel(alloc, strip.top, strip.channel, name)?)?;
        for (place, track) in strip.tracks.iter().enumerate() {
            let lane = strip.lane(rows, place);
            self.keep(at, name_of_lane(alloc, rows, &lane, *track)?)?;
        }
        Ok(())
    }

    /// One more element of the channel at a place in the group. It is left out where it can't have room in any case:
    /// where it is larger than all the room there is, and of the first channel where it has none behind the others of
    /// that.
    fn keep(&mut self, at: usize, element: String) -> Result<(), AllocError> {
        let size = element.len();
        if size > self.room {
            return Ok(());
        }
        let most = self.room.saturating_sub(size);
        for _last in 1..self.lanes.len() {
            if self.size <= most {
                break;
            }
            self.put_off();
        }
        if self.size <= most
            && let Some(lanes) = self.lanes.get_mut(at)
        {
            self.size = self.size.saturating_add(size);
            lanes.keep(element)?;
        }
        Ok(())
    }

    /// The last channel waits for a later pass.
    fn put_off(&mut self) {
        if let Some(lanes) = self.lanes.pop() {
            self.size = self.size.saturating_sub(lanes.size);
        }
    }

    /// Adds the messages of a packet, where they are of a channel of the group: the selected ones as bars that have the
    /// room; those of which no time is known are left out.
    pub(crate) fn add_messages(
        &mut self,
        canvas: &mut Canvas<'_>,
        packet: &Packet,
        messages: Messages<'_>,
    ) -> Result<(), AllocError> {
        let channel = packet.header.channel;
        let Some(at) = self.lanes.iter().position(|lanes| lanes.channel == channel) else {
            return Ok(());
        };
        let kind = StampKind::of(&packet.header);
        let mut number = packet.before;
        let mut rest = messages;
        'messages: while let Some(seen) = rest.next() {
            number = number.saturating_add(1);
            self.add_message(canvas, at, number, &View::of(kind, &seen))?;
        }
        Ok(())
    }

    /// One more message of the channel at a place in the group, with its number in the file: its elements in the lanes
    /// that have it.
    fn add_message(
        &mut self,
        canvas: &mut Canvas<'_>,
        at: usize,
        number: u64,
        view: &View<'_>,
    ) -> Result<(), AllocError> {
        let Some(lanes) = self.lanes.get_mut(at) else {
            return Ok(());
        };
        let Some(place) = lanes.pass(canvas, number, view)? else {
            return Ok(());
        };
        for lane in 0..lanes.count() {
            if let Some(lanes) = self.lanes.get_mut(at)
                && let Some(element) = lanes.drawn(canvas, lane, &place, view)?
            {
                self.keep(at, element)?;
            }
        }
        Ok(())
    }

    /// Draws the channels that did not have to wait; answers how many.
    pub(crate) fn draw(self, canvas: &mut Canvas<'_>, loads: &Loads) -> Result<usize, AllocError> {
        let count = self.lanes.len();
        for lanes in self.lanes.into_iter() {
            draw_lanes(canvas, &lanes, loads)?;
        }
        Ok(count)
    }
}
