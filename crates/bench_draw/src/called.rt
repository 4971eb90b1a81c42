//! Which terminals of a channel are called, and the lanes of a channel.
ghost use Rattle.bench_draw.specs.Lanes as spec;
ghost use Rattle.std.specs.Prelude.{◌≡◌, ◌||◌, ◌<◌, false, ℕ, IfOk};

use crate::track::{Track, called_at};
use ch11_layout::View;
use mil_word::Line;
use std::alloc::{AllocError, Global};

/// How many addresses there are: of 31 terminals, and of all of them.
const ADDRESSES: usize = 32;

/// For each address from 0 on whether it is called.
#[derive(Clone, Copy, Debug)]
pub struct Called {
    flags: [bool; ADDRESSES],
}

impl Called {
    /// None is called.
    pub fn none() -> Called
        ensures { (address : ℕ) → address < 32 → spec.is_called result address ≡ false }
    {
        Called {
            flags: [false; ADDRESSES],
        }
    }

    /// Those that the commands of a message call are called too.
    pub fn add(&mut self, view: &View<'_>)
        ensures { (address : ℕ) → address < 32
            → spec.is_called self.new address ≡ (spec.is_called self.old address || spec.calls view.now address) }
    {
        self.note(called_at(view, 0));
        self.note(called_at(view, 1));
    }

    /// That address is called too, if there is one.
    fn note(&mut self, address: Option<u8>)
        ensures { (place : ℕ) → place < 32
            → spec.is_called self.new place ≡ (spec.is_called self.old place || spec.is_address address place) }
    {
        if let Some(address) = address
            && usize::from(address) < ADDRESSES
        {
            self.flags[usize::from(address)] = true;
        }
    }

    /// The lanes of the terminals that are called, in rising order of their addresses, so that of broadcast last.
    #[tactic(auto, using(crate::proofs::Calling::one_called, crate::proofs::Calling::one_not_called))]
    pub fn tracks(&self, alloc: Global) -> Result<Vec<Track>, AllocError>
        ensures { IfOk result (λ tracks. tracks.items ≡ spec.lanes_of self.now) }
    {
        let mut tracks = Vec::new(alloc);
        'addresses: for address in 0..ADDRESSES as u8 {
            if self.flags[usize::from(address)] {
                tracks.push(Track::Terminal(address))?;
            }
        }
        Ok(tracks)
    }
}

/// The lanes of the lines.
pub(crate) fn lines(alloc: Global) -> Result<Vec<Track>, AllocError> {
    let mut tracks = Vec::new(alloc);
    tracks.push(Track::Line(Line::A))?;
    tracks.push(Track::Line(Line::B))?;
    Ok(tracks)
}
