//! Lists of steps.
ghost use Rattle.bench_core.specs.World.{Plays, IsWhole};

use crate::error::PlayError;
use crate::step::Step;
use crate::stepping::{are_few_posts, are_for_terminals, are_steps};
use crate::world::World;

impl World {
    /// Takes the steps, one after the other. O1 where one is of a channel that does not exist, O3 where an action is
    /// posted to an address at which its channel has no terminal, O4 where a channel would have more posts since the
    /// world was made than the settings allow, in this order, and nothing is done; O2 where memory is refused, once the
    /// steps before are done.
    pub fn play(&mut self, steps: &[Step]) -> Result<(), PlayError>
        ensures played { Plays steps.now self.old result self.new }
        ensures whole { IsWhole self.new }
    {
        let played = self.play_all(steps);
        self.keeps_whole();
        played
    }

    fn play_all(&mut self, steps: &[Step]) -> Result<(), PlayError>
        ensures { Plays steps.now self.old result self.new }
    {
        if !are_steps(self.channels().len(), steps) {
            return Err(PlayError::Index);
        }
        if !are_for_terminals(self.channels(), steps) {
            return Err(PlayError::NoTerminal);
        }
        if !are_few_posts(self.most(), self.channels(), steps) {
            return Err(PlayError::Posts);
        }
        let mut done = 0;
        for step in steps {
            match self.step(step) {
                Ok(()) => done += 1,
                Err(_) => return Err(PlayError::Memory { done }),
            }
        }
        Ok(())
    }
}
