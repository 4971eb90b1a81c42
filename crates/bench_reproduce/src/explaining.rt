//! How recorded messages are explained, one after the other: guesses and ways are tried on a bus that the messages
//! before have brought to where it is.

use crate::cases::{Case, due_count};
use crate::deeds::Deed;
use crate::explanations::Explanation;
use crate::guesses::{GUESSES, Guess, guess_at};
use crate::hearing::Heard;
use crate::hosts::{Ahead, has, is_uncommon, legality, renew, set_bits, set_reply};
use crate::mending::{mark_controller, mend, mend_bits, mend_controller};
use crate::outlook::{Outlook, Shown, WRAPAROUND, bit};
use crate::scene::Scene;
use crate::styles::{Mark, STYLES, style_of};
use crate::timeline::{Call, Played};
use crate::wanted::Wanted;
use mil_bus::BusError;
use mil_host::Action;
use mil_message::Message;
use mil_status::StatusBits;
use mil_word::Command;
use std::alloc::{AllocError, Global};

/// How often faults and actions are added to what was tried.
const ROUNDS: u8 = 4;

/// How many messages may be left unexplained until only the likeliest guess is tried.
const PATIENCE: u32 = 1000;

/// What stands for a try that does not give the record.
const OTHER: u32 = 1000;

/// Explains the messages of a recording in their order.
#[derive(Drop)]
pub(crate) struct Explainer<'a> {
    messages: &'a Heard,
    first: u64,
    present: u32,
    scene: Scene,
    explanation: Explanation,
    due: Vec<Deed>,
    unexplained: u32,
}

/// The best that was tried.
#[derive(Clone, Copy)]
struct Best {
    guess: u8,
    style: u8,
    missed: u32,
}

impl<'a> Explainer<'a> {
    /// Begins in front of the first message, with terminals of these addresses.
    pub(crate) fn begin(
        alloc: Global,
        messages: &'a Heard,
        first: u64,
        addresses: &[u8],
    ) -> Result<Explainer<'a>, AllocError> {
        let scene = match Scene::make(alloc, addresses) {
            Ok(scene) => scene,
            Err(BusError::Addresses | BusError::Memory) => return Err(AllocError),
        };
        let mut present = 0u32;
        for address in addresses {
            present |= bit(*address);
        }
        Ok(Explainer {
            messages,
            first,
            present,
            scene,
            explanation: Explanation::none(alloc, addresses)?,
            due: Vec::new(alloc),
            unexplained: 0,
        })
    }

    /// Explains the message at a place; what explains it, and what it has to give.
    pub(crate) fn explain(&mut self, place: usize) -> Result<Option<Wanted>, AllocError> {
        let Some(met) = self.messages.get(place) else {
            return Ok(None);
        };
        let wanted = Wanted::of(&met.view(), self.first);
        let next = place.saturating_add(1);
        let best = self.search(&wanted, next)?;
        if best.missed >= OTHER {
            self.unexplained = self.unexplained.saturating_add(1);
        }
        self.scene.settle(&wanted, &self.explanation);
        self.due.clear();
        for deed in self.explanation.deeds.later() {
            let action = deed.action.copy();
            self.due.push(Deed {
                address: deed.address,
                action,
            })?;
        }
        Ok(Some(wanted))
    }

    /// What explains the message that was explained last.
    pub(crate) fn explanation(&self) -> &Explanation {
        &self.explanation
    }

    /// Puts the message at a place behind those that were played on the bus, where it is explained.
    fn play_one(&mut self, place: usize, played: &mut Vec<Played>) -> Result<(), AllocError> {
        if let Some(wanted) = self.explain(place)? {
            played.push(self.played(&wanted))?;
        }
        Ok(())
    }

    /// The same as it was played on the bus.
    fn played(&self, wanted: &Wanted) -> Played {
        Played {
            at: wanted.at,
            end: self.scene.ended(),
            least: self.scene.least(),
            call: Call::of(wanted.line, &self.explanation.message),
        }
    }

    /// Tries guesses and ways until one gives the record and what is shown later; the best of them is then the
    /// explanation, and was tried last.
    fn search(&mut self, wanted: &Wanted, next: usize) -> Result<Best, AllocError> {
        let guesses = if self.unexplained > PATIENCE {
            1
        } else {
            GUESSES
        };
        let mut best = Best {
            guess: GUESSES,
            style: 0,
            missed: u32::MAX,
        };
        let mut last = (GUESSES, 0u8);
        for which in 0..guesses {
            let Some(guess) = guess_at(wanted, which) else {
                continue;
            };
            for style in 0..STYLES {
                let missed = self.try_style(wanted, &guess, style, next)?;
                last = (which, style);
                if missed < best.missed {
                    best = Best {
                        guess: which,
                        style,
                        missed,
                    };
                }
                if missed == 0 {
                    return Ok(best);
                }
            }
            if best.missed < OTHER && !guess_matters(wanted) {
                break;
            }
        }
        self.take_best(wanted, next, best, last)?;
        Ok(best)
    }

    /// Tries the best once more, where something else was tried last.
    fn take_best(
        &mut self,
        wanted: &Wanted,
        next: usize,
        best: Best,
        last: (u8, u8),
    ) -> Result<(), AllocError> {
        match guess_at(wanted, best.guess) {
            Some(guess) => {
                if last != (best.guess, best.style) {
                    // How much of it is missed is known.
                    let _ = self.try_style(wanted, &guess, best.style, next)?;
                }
                Ok(())
            }
            None => {
                self.explanation
                    .begin(Message::default(), self.due.as_slice())?;
                // There is no better one, however much of it is missed.
                let _ = self.scene.attempt(wanted, &self.explanation)?;
                Ok(())
            }
        }
    }

    /// Tries a guess in a way, if there is that one.
    fn try_style(
        &mut self,
        wanted: &Wanted,
        guess: &Guess,
        which: u8,
        next: usize,
    ) -> Result<u32, AllocError> {
        match style_of(wanted, which) {
            Some(style) => self.try_case(&Case {
                wanted,
                guess,
                style,
                next,
            }),
            None => Ok(u32::MAX),
        }
    }

    /// Tries a case: how much of what is shown later is missed, `OTHER` or more where the record is another.
    fn try_case(&mut self, case: &Case<'_>) -> Result<u32, AllocError> {
        let mut outlook = Outlook::none(self.messages);
        self.look_ahead(case, &mut outlook);
        self.prepare(case, &outlook)?;
        let mut judged = false;
        for _round in 0..ROUNDS {
            let Some(talk) = self.scene.attempt(case.wanted, &self.explanation)? else {
                return Ok(u32::MAX);
            };
            if case.wanted.is_given_by(&talk) {
                let missed = outlook.missed(&self.scene);
                if missed == 0 || judged || !self.judge_again(case, &outlook)? {
                    return Ok(missed);
                }
                judged = true;
                continue;
            }
            let mended = mend(&mut self.explanation, case, &outlook, &talk)?;
            if !mended && !mend_bits(&mut self.explanation, case, &talk) {
                return Ok(OTHER);
            }
        }
        Ok(OTHER)
    }

    /// Looks at what later messages show of the terminals that the message is for.
    fn look_ahead(&self, case: &Case<'_>, outlook: &mut Outlook<'_>) {
        if case.shows_all() {
            return;
        }
        outlook.look(case.next, case.concerned(self.present));
        let command = case.command(2);
        if command.is_receive() && command.subaddress() == WRAPAROUND && !command.is_broadcast() {
            outlook.look_for_wrapped(case.next, command.address());
        }
    }

    /// What hosts do, and which faults are planned, before anything is tried.
    fn prepare(&mut self, case: &Case<'_>, outlook: &Outlook<'_>) -> Result<(), AllocError> {
        self.explanation
            .begin(case.message().copy(), self.due.as_slice())?;
        mend_controller(&mut self.explanation, case);
        if case.style.mark != Mark::Reply {
            mark_controller(&mut self.explanation, case);
        }
        let count = due_count(case.message());
        for run in [1u32, 2] {
            if run <= count {
                self.prepare_reply(case, outlook, run)?;
            }
        }
        self.prepare_shown(case, outlook)
    }

    /// The same for a reply that came.
    fn prepare_reply(
        &mut self,
        case: &Case<'_>,
        outlook: &Outlook<'_>,
        run: u32,
    ) -> Result<(), AllocError> {
        let Some(reply) = case.reply(run) else {
            return Ok(());
        };
        let address = reply.command.address();
        if case.style.renews {
            renew(&mut self.explanation, address)?;
        }
        let stays = is_uncommon(reply.gap) && outlook.keeps_gap(case.next, address, reply.gap);
        let ahead = Ahead {
            outlook,
            next: case.next,
            stays,
        };
        set_reply(&mut self.explanation, &self.scene, &reply, &ahead)
    }

    /// The same for terminals that did not reply, as far as later messages show their status words.
    fn prepare_shown(&mut self, case: &Case<'_>, outlook: &Outlook<'_>) -> Result<(), AllocError> {
        if case.style.deafens {
            return Ok(());
        }
        for shown in outlook.shown.as_slice() {
            self.prepare_one(case, shown)?;
        }
        Ok(())
    }

    /// The same for one of them.
    fn prepare_one(&mut self, case: &Case<'_>, shown: &Shown) -> Result<(), AllocError> {
        let Some(status) = shown.status else {
            return Ok(());
        };
        let command = self.command_for(case, shown.address);
        let Some(terminal) = self.scene.terminal(shown.address) else {
            return Ok(());
        };
        let takes = has(status, StatusBits::BROADCAST);
        if case.is_to_all() && takes != terminal.conditions_set().broadcast {
            let action = Action::Broadcast(takes);
            self.explanation.act(shown.address, action)?;
        }
        if case.is_to_all() && !takes {
            return Ok(());
        }
        set_bits(&mut self.explanation, terminal, command, status)
    }

    /// The command that a terminal with this address hears.
    fn command_for(&self, case: &Case<'_>, address: u8) -> Command {
        let first = case.command(1);
        if first.address() == address {
            first
        } else {
            case.command(2)
        }
    }

    /// Has terminals take the command as illegal, or as legal again, where their status words show so; false where none
    /// does.
    fn judge_again(&mut self, case: &Case<'_>, outlook: &Outlook<'_>) -> Result<bool, AllocError> {
        let mut changed = false;
        for shown in outlook.shown.as_slice() {
            changed = self.judge_one(case, shown)? || changed;
        }
        Ok(changed)
    }

    /// The same for one of them.
    fn judge_one(&mut self, case: &Case<'_>, shown: &Shown) -> Result<bool, AllocError> {
        let Some(status) = shown.status else {
            return Ok(false);
        };
        let Some(terminal) = self.scene.terminal_then(shown.address) else {
            return Ok(false);
        };
        let is_illegal = has(status, StatusBits::MESSAGE_ERROR);
        if is_illegal == has(terminal.status(), StatusBits::MESSAGE_ERROR) {
            return Ok(false);
        }
        let command = self.command_for(case, shown.address);
        let action = legality(command, is_illegal);
        self.explanation.act(shown.address, action)?;
        Ok(true)
    }
}

/// Whether another message might explain what later messages show: where no reply came, and where one came behind a
/// command to all terminals, to which none is due.
fn guess_matters(wanted: &Wanted) -> bool {
    let is_to_all = Command::of(wanted.word(0)).is_broadcast();
    !wanted.came(1) || is_to_all && !wanted.is_transfer()
}

/// When the messages of a channel were on the bus, and which they were.
pub(crate) fn play(
    alloc: Global,
    heard: &Heard,
    first: u64,
    addresses: &[u8],
) -> Result<Vec<Played>, AllocError> {
    let mut explainer = Explainer::begin(alloc, heard, first, addresses)?;
    let mut played = Vec::new(alloc);
    for place in 0..heard.len() {
        explainer.play_one(place, &mut played)?;
    }
    Ok(played)
}
