//! Frames with a period (own choice).
ghost use Rattle.bc_machine.specs.Frames.{HaveBegun, closing_of};
ghost use Rattle.bc_machine.specs.MayStep.{IsAble};
ghost use Rattle.bc_machine.specs.Moves.{framed, moved_quietly};
ghost use Rattle.bc_machine.specs.Running.{clock_in, world_in, frames_point};
ghost use Rattle.frame_code.specs.Table.{keeps_pace};
ghost use Rattle.std.specs.Prelude.{◌≡◌, ◌<◌, ◌≤◌, ◌+◌, ◌*◌, ◌^◌, length, IfSome};

use crate::Stepped;
use crate::laws::BusSetting;
use crate::machine::Machine;
use crate::parts::Parts;
use frame_code::Op;
use frame_load::loadable_runs;

/// A frame that is about to be closed.
#[derive(Clone, Copy, Debug, PartialEq, Eq)]
pub struct Closing {
    /// The tick at which it began.
    pub began: u64,
    /// Its period, 1 to 65,535 times 100 µs.
    pub hundreds: u16,
}

impl Parts {
    /// Opens a frame, which begins now.
    pub(crate) fn open_frame(&mut self)
        requires { length self.old.at.frames < 16 }
        ensures { self.new ≡ framed self.old }
    {
        self.progress.frames.push(self.bus.now());
    }

    /// Closes the frame that was opened last: no message starts before so many hundreds of µs have passed since it
    /// began.
    pub(crate) fn close_frame(&mut self, hundreds: u16) -> Stepped
        requires taken { self.old.taken < 2 ^ 31 }
        requires place { self.old.at.place < 4096 }
        requires open { 0 < length self.old.at.frames }
        requires begun { HaveBegun self.old }
        requires clock { clock_in self.old ≤ 2 ^ 48 }
        ensures value { self.new ≡ moved_quietly
            (keeps_pace (world_in self.old) self.old.at.frames hundreds self.old.at (frames_point self.old)) self.old }
        ensures answer { result ≡ Stepped.Ran }
        ensures soon { clock_in self.new ≤ clock_in self.old + 1000 * hundreds }
    {
        match self.progress.frames.pop() {
            Some(begin) => {
                self.bus.pace(begin + 1000 * u64::from(hundreds));
                self.go_on()
            }
            None => Stepped::Ran,
        }
    }
    /// The frame that the next step closes; None where it closes none.
    fn closing(&self) -> Option<Closing>
        requires { IsAble self.now }
        ensures value { result ≡ closing_of self.now }
        ensures soon { IfSome result (λ c. c.began ≤ 2 ^ 48) }
    {
        let Op::Pace(hundreds) = self.op() else {
            return None;
        };
        let began = self.progress.frames.copy().pop()?;
        Some(Closing { began, hundreds })
    }
}

impl Machine {
    /// The frame that the next step closes, with the tick at which it began, at most 2^48; None where the next step
    /// closes none.
    pub fn closing(&self) -> Option<Closing>
        ensures value { result ≡ closing_of self.now }
        ensures soon { IfSome result (λ c. c.began ≤ 2 ^ 48) }
    {
        loadable_runs::<BusSetting>();
        self.parts.closing()
    }
}
