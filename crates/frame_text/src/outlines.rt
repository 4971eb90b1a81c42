//! Conditions and frames that proofs alone know: no byte of them is kept at run time. What keeps nothing but numbers of
//! a frame holds one, so that its contracts can speak of the frame.

ghost use Rattle.frame_text.specs.OutlineParts.{asked_by, outlined};
ghost use Rattle.std.specs.Prelude.{◌≡◌};

use frame_tree::Name;
use mil_message::{Message, OutcomeTest};
use mil_word::Line;
use std::marker::Model;
use std::snapshot::Snapshot;

/// A condition, in proofs alone. It is made to be looked at and let go. Contracts see the steps that make
/// it, and of how many others it was made.
#[cycle(asked)]
#[derive(Drop)]
pub struct Asked {
    ask: Ask,
}

#[cycle(asked)]
#[derive(Drop)]
pub enum Ask {
    Test(OutcomeTest),
    Not(Snapshot<Asked>),
    All(Snapshot<Asked>, Snapshot<Asked>),
    Any(Snapshot<Asked>, Snapshot<Asked>),
}

impl Model for Asked {
    ghost use Rattle.frame_text.specs.Outlines.{Step};
    ghost use Rattle.std.specs.Prelude.{ℕ, List};

    ghost Value = { List Step × ℕ };

    ghost use Rattle.frame_text.specs.OutlineParts.{asked_by};

    ghost view = { λ a. asked_by a.ask };

    ghost size = { λ v. v.1 };

    ghost use Rattle.std.proofs.Common.{arith};

    ghost size_decreases = { λ a h. Prim.grind arith };
}

/// A frame, or frames one after the other, in proofs alone. It is made to be looked at and let go.
#[cycle(outlines)]
#[derive(Drop)]
pub struct Outline {
    part: Part,
}

#[cycle(outlines)]
#[derive(Drop)]
pub enum Part {
    Send(Line, Snapshot<Message>),
    Retry(u8, Line, Snapshot<Message>),
    Gap(u16),
    Repeat(u16, Snapshot<Outline>),
    If(Snapshot<Asked>, Snapshot<Outline>, Snapshot<Outline>),
    Until(Snapshot<Asked>, u16, Snapshot<Outline>),
    Timed(u16, Snapshot<Outline>),
    Call(Snapshot<Name>),
    Define(Snapshot<Name>, Snapshot<Outline>, Snapshot<Outline>),
    /// No frames yet.
    NoFrames,
    /// One frame behind others.
    More(Snapshot<Outline>, Snapshot<Outline>),
    /// Frames one after the other, as one frame.
    Whole(Snapshot<Outline>),
}

impl Model for Outline {
    ghost use Rattle.frame_text.specs.Outlines.{Outlined};

    ghost Value = { Outlined };

    ghost use Rattle.frame_text.specs.OutlineParts.{outlined};

    ghost view = { λ o. outlined o.part };

    ghost size = { λ v. v.level };

    ghost use Rattle.std.proofs.Common.{arith};

    ghost size_decreases = { λ a h. Prim.grind arith };
}

/// What is known of a condition.
pub fn asked_of(ask: Ask) -> Snapshot<Asked>
    ensures { result.value ≡ asked_by ask }
{
    let asked = Asked { ask };
    Snapshot::of(&asked)
}

/// What is known of a frame.
pub fn outline_of(part: Part) -> Snapshot<Outline>
    ensures { result.value ≡ outlined part }
{
    let outline = Outline { part };
    Snapshot::of(&outline)
}
