//! What hosts of terminals set so that replies come as they were recorded.

use crate::explanations::Explanation;
use crate::outlook::{Outlook, is_question};
use crate::ramps::{HIGHEST_PUT_UP, counters_in};
use crate::scene::Scene;
use arrayvec::ArrayVec;
use mil_host::{Action, Mark, ModeMark, ReplyGap, ResponseGap, TransmitWords};
use mil_line::Fault;
use mil_status::StatusBits;
use mil_terminal::{HostConditions, Terminal};
use mil_word::{Command, Line, Status};
use std::alloc::AllocError;

/// Mode codes (MIL-STD-1553B 4.3.3.5.1.7).
const CONTROL: u8 = 0;

const INHIBIT_FLAG: u8 = 6;

const OVERRIDE_INHIBIT: u8 = 7;

const VECTOR: u8 = 16;

const BIT_WORD: u8 = 19;

/// The longest and the shortest response time that a host may set, in ticks of 0.1 µs (MIL-STD-1553B 4.3.3.8), and the
/// shortest gap at all.
const LONGEST: u16 = 120;

const SHORTEST: u16 = 40;

const LEAST: u16 = 21;

/// A reply as it was recorded.
#[derive(Clone, Copy, Debug)]
pub(crate) struct Reply<'a> {
    pub(crate) run: u32,
    /// The command that it answers.
    pub(crate) command: Command,
    pub(crate) line: Line,
    pub(crate) status: u16,
    /// Its data words.
    pub(crate) words: &'a [u16],
    /// Its gap in ticks.
    pub(crate) gap: u16,
    /// Whether the words may have been altered on the line.
    pub(crate) is_odd: bool,
    /// Whether one may be unsound.
    pub(crate) is_unsound: bool,
}

/// What the messages behind a reply are looked at for.
#[derive(Clone, Copy)]
pub(crate) struct Ahead<'o, 'm> {
    pub(crate) outlook: &'o Outlook<'m>,
    /// The place of the next message.
    pub(crate) next: usize,
    /// Whether the terminal's next reply has the same gap.
    pub(crate) stays: bool,
}

/// Whether a status word has a bit.
pub(crate) fn has(status: u16, bit: StatusBits) -> bool {
    status & bit.0 != 0
}

/// Whether the terminal flag is inhibited where the status word is set.
fn inhibits(terminal: &Terminal, command: Command) -> bool {
    if command.is_mode() && command.is_transmit() && command.code() == INHIBIT_FLAG {
        true
    } else if command.is_mode() && command.is_transmit() && command.code() == OVERRIDE_INHIBIT {
        false
    } else {
        terminal.flag_inhibited()
    }
}

/// Sets the bits of a status word that the host has, for a command that is no question for it.
pub(crate) fn set_bits(
    explanation: &mut Explanation,
    terminal: &Terminal,
    command: Command,
    status: u16,
) -> Result<(), AllocError> {
    if is_question(command) {
        return Ok(());
    }
    let address = terminal.address();
    let set = terminal.conditions_set();
    let busy = has(status, StatusBits::BUSY);
    if busy != set.busy {
        explanation.act(address, Action::Busy(busy))?;
    }
    let service = has(status, StatusBits::SERVICE_REQUEST);
    if service != set.service {
        explanation.act(address, Action::Service(service))?;
    }
    let subsystem = has(status, StatusBits::SUBSYSTEM);
    if subsystem != set.subsystem {
        explanation.act(address, Action::Subsystem(subsystem))?;
    }
    set_flags(explanation, terminal, set, command, status)
}

/// Sets the terminal flag and the acceptance of control.
fn set_flags(
    explanation: &mut Explanation,
    terminal: &Terminal,
    set: HostConditions,
    command: Command,
    status: u16,
) -> Result<(), AllocError> {
    let address = terminal.address();
    let flag = has(status, StatusBits::TERMINAL);
    if flag != (set.fault && !inhibits(terminal, command)) {
        explanation.act(address, Action::Fault(flag))?;
    }
    let asks = command.is_mode() && command.is_transmit() && command.code() == CONTROL;
    let control = has(status, StatusBits::CONTROL);
    if asks && control != set.control {
        explanation.act(address, Action::Control(control))?;
    }
    Ok(())
}

/// The word that a terminal sends at a place: 0 where none is put up.
pub(crate) fn word_in(held: &[u16], place: usize) -> u16 {
    match held.get(place) {
        Some(word) => *word,
        None => 0,
    }
}

/// In how many places the words that a terminal sends are others than these.
fn differing(held: &[u16], words: &[u16]) -> usize {
    let mut count = 0usize;
    for place in 0..words.len() {
        if word_in(held, place) != words[place] {
            count = count.saturating_add(1);
        }
    }
    count
}

/// Words, and behind them those that a terminal holds.
fn put_up(sub: u8, held: &[u16], words: &[u16]) -> Option<Action> {
    let mut all = ArrayVec::new();
    for word in words {
        // At most 32 are taken.
        let _ = all.try_push(*word);
    }
    for place in words.len()..held.len() {
        // At most 32 are taken.
        let _ = all.try_push(held[place]);
    }
    if all.as_slice().is_empty() || sub == 0 || sub > HIGHEST_PUT_UP {
        return None;
    }
    Some(Action::Transmit(TransmitWords::make(sub, all)))
}

/// Puts up the data words of a reply, where the terminal has others; as ramps, where later replies show that they are.
fn set_words(
    explanation: &mut Explanation,
    terminal: &Terminal,
    reply: &Reply<'_>,
    ahead: &Ahead<'_, '_>,
) -> Result<(), AllocError> {
    let sub = reply.command.subaddress();
    if !reply.command.is_transmit() || sub == 0 || sub > HIGHEST_PUT_UP {
        return Ok(());
    }
    let held = terminal.transmit_words(sub);
    let count = differing(held, reply.words);
    if count == 0 || reply.is_odd && count == 1 {
        return Ok(());
    }
    if let Some(counters) = counters_in(ahead.outlook, ahead.next, held, reply) {
        for counter in counters.as_slice() {
            explanation.act(terminal.address(), Action::Ramp(counter.ramp(sub)))?;
        }
        return Ok(());
    }
    match put_up(sub, held, reply.words) {
        Some(action) => explanation.act(terminal.address(), action),
        None => Ok(()),
    }
}

/// Sets the word that a mode command asks for.
fn set_mode_word(
    explanation: &mut Explanation,
    terminal: &Terminal,
    reply: &Reply<'_>,
) -> Result<(), AllocError> {
    let (address, code) = (terminal.address(), reply.command.code());
    match reply.words {
        [word] if code == VECTOR && *word != terminal.vector() => {
            explanation.act(address, Action::Vector(*word))
        }
        [word] if code == BIT_WORD && *word != terminal.bit_word() => {
            explanation.act(address, Action::BitWord(*word))
        }
        _ => Ok(()),
    }
}

/// Whether a gap is none that a response time can be.
pub(crate) fn is_uncommon(gap: u16) -> bool {
    gap < SHORTEST || gap > LONGEST
}

/// Sets the gap of a reply, by the host or by a planned fault.
fn set_gap(
    explanation: &mut Explanation,
    scene: &Scene,
    address: u8,
    reply: &Reply<'_>,
    stays: bool,
) -> Result<(), AllocError> {
    let gap = reply.gap;
    if gap == scene.gap(address) || gap < LEAST || gap > 255 {
        return Ok(());
    }
    let ticks = gap as u8;
    if SHORTEST <= gap && gap <= LONGEST {
        return explanation.act(address, Action::Response(ResponseGap::make(ticks)));
    }
    let (run, long) = (reply.run, u32::from(gap));
    let fault = if gap < SHORTEST {
        Fault::Early { run, ticks: long }
    } else {
        Fault::Late { run, ticks: long }
    };
    if stays || !explanation.plan(fault) {
        return explanation.act(address, Action::Gap(ReplyGap::make(ticks)));
    }
    Ok(())
}

/// Lets a terminal be heard, and hear, on a line.
fn open_line(
    explanation: &mut Explanation,
    terminal: &Terminal,
    line: Line,
) -> Result<(), AllocError> {
    let address = terminal.address();
    if terminal.mute(line) {
        explanation.act(address, Action::Mute { line, on: false })?;
    }
    if terminal.deaf(line) {
        explanation.act(address, Action::Deaf { line, on: false })?;
    }
    Ok(())
}

/// Whether the status word of a reply is what the terminal gave: where a word is unsound it may be that one, but for a
/// reply that is shorter since the terminal is busy.
fn shows_status(terminal: &Terminal, reply: &Reply<'_>) -> bool {
    let is_own = Status::of(reply.status).address() == terminal.address();
    let is_busy = has(reply.status, StatusBits::BUSY) && reply.words.is_empty();
    is_own && (!reply.is_unsound || is_busy)
}

/// The terminal that replies: that of the command, or of the status word where it is not there.
fn replying<'t>(scene: &'t Scene, reply: &Reply<'_>) -> Option<&'t Terminal> {
    match scene.terminal(reply.command.address()) {
        Some(terminal) => Some(terminal),
        None => scene.terminal(Status::of(reply.status).address()),
    }
}

/// Has the host of a terminal set what its reply shows.
pub(crate) fn set_reply(
    explanation: &mut Explanation,
    scene: &Scene,
    reply: &Reply<'_>,
    ahead: &Ahead<'_, '_>,
) -> Result<(), AllocError> {
    let Some(terminal) = replying(scene, reply) else {
        return Ok(());
    };
    open_line(explanation, terminal, reply.line)?;
    if shows_status(terminal, reply) {
        set_bits(explanation, terminal, reply.command, reply.status)?;
    }
    if reply.command.is_mode() {
        set_mode_word(explanation, terminal, reply)?;
    } else {
        set_words(explanation, terminal, reply, ahead)?;
    }
    set_gap(explanation, scene, terminal.address(), reply, ahead.stays)
}

/// The action by which a terminal takes a command as illegal, or as legal again.
pub(crate) fn legality(command: Command, is_illegal: bool) -> Action {
    if command.is_mode() {
        let mark = ModeMark::make(command.is_transmit(), command.code());
        return if is_illegal {
            Action::IllegalMode(mark)
        } else {
            Action::LegalMode(mark)
        };
    }
    let sub = command.subaddress().clamp(1, 30);
    let count = command.count().clamp(1, 32);
    let mark = Mark::make(command.is_transmit(), sub, count);
    if is_illegal {
        Action::Illegal(mark)
    } else {
        Action::Legal(mark)
    }
}

/// Makes a terminal anew.
pub(crate) fn renew(explanation: &mut Explanation, address: u8) -> Result<(), AllocError> {
    explanation.act(address, Action::Power(false))?;
    explanation.act(address, Action::Power(true))
}
