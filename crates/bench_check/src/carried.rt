//! Which words that the host of the controller sets are carried by a message.
ghost use Rattle.bc_machine.specs.Rising.{IsRising};
ghost use Rattle.std.specs.Prelude.{◌<◌, vec_len, IfSome};

use bc_machine::{Actions, HostAction, Placed, Upcoming};
use controller_host::{Control, Destination};
use mil_message::Message;
use std::alloc::{AllocError, Global};

/// A place of a destination, counted from 1, and by its place in a list which action set it last.
#[derive(Clone, Copy, Debug)]
struct Setter {
    destination: Destination,
    place: usize,
    action: usize,
}

/// Which places the host of the controller has set so far, and whether a message has carried what each action set.
#[derive(Debug, Drop)]
pub(crate) struct Carried {
    setters: Vec<Setter>,
    carried: Vec<bool>,
}

/// How many places an action of the host of the controller sets from which one on, and where; None where it sets none.
fn places_of(action: &HostAction) -> Option<(Destination, usize, usize)> {
    match action {
        HostAction::Controller(Control::Data(new)) => Some((
            new.destination(),
            1,
            new.words().len(),
        )),
        HostAction::Controller(Control::Ramp(ramp)) => {
            Some((ramp.destination(), usize::from(ramp.place()), 1))
        }
        _ => None,
    }
}

impl Carried {
    /// Before any message, where so many actions are placed.
    pub(crate) fn none(alloc: Global, actions: &Actions) -> Result<Carried, AllocError> {
        Ok(Carried {
            setters: Vec::new(alloc),
            carried: vec![in alloc; false; actions.len()]?,
        })
    }

    /// Which of the places that were set is this one.
    fn find(&self, destination: Destination, place: usize) -> Option<usize>
        ensures { IfSome result (λ i. i < vec_len self.now.setters) }
    {
        for i in 0..self.setters.len() {
            if self.setters[i].place == place && self.setters[i].destination.is(&destination) {
                return Some(i);
            }
        }
        None
    }

    /// An action sets a place.
    fn set(
        &mut self,
        destination: Destination,
        place: usize,
        action: usize,
    ) -> Result<(), AllocError> {
        match self.find(destination, place) {
            Some(i) => {
                self.setters[i].action = action;
                Ok(())
            }
            None => {
                self.setters.push(Setter {
                    destination,
                    place,
                    action,
                })?;
                Ok(())
            }
        }
    }

    /// What the action at a place of a list sets.
    fn note_action(&mut self, one: &Placed, action: usize) -> Result<(), AllocError> {
        if let Some((destination, first, count)) = places_of(&one.action) {
            for more in 0..count {
                self.set(destination, first.saturating_add(more), action)?;
            }
        }
        Ok(())
    }

    /// A message of the script carries words.
    fn note_message(&mut self, message: &Message) {
        let Some(destination) = Destination::of(message) else {
            return;
        };
        let count = message.data_words().len();
        for setter in &self.setters {
            if setter.place <= count && setter.destination.is(&destination) {
                if setter.action < self.carried.len() {
                    self.carried[setter.action] = true;
                }
            }
        }
    }

    /// One more message, and what is placed at it.
    pub(crate) fn note_coming(
        &mut self,
        actions: &Actions,
        number: u32,
        coming: &Upcoming,
    ) -> Result<(), AllocError>
        requires { IsRising actions.now }
    {
        for place in actions.behind(number.saturating_sub(1))..actions.behind(number) {
            self.note_action(&actions.get(place), place)?;
        }
        if !coming.inserted {
            self.note_message(&coming.talk.message);
        }
        Ok(())
    }

    /// The actions up to the message of a number that set words which no message has carried.
    pub(crate) fn uncarried(
        &self,
        alloc: Global,
        actions: &Actions,
        made: u32,
    ) -> Result<Vec<Placed>, AllocError> {
        let mut found = Vec::new(alloc);
        for place in 0..actions.len().min(self.carried.len()) {
            let one = actions.get(place);
            if one.number <= made && !self.carried[place] && places_of(&one.action).is_some() {
                found.push(one)?;
            }
        }
        Ok(found)
    }
}
