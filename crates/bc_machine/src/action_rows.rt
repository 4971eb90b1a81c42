//! Placed actions as rows of 16 bytes.
ghost use Rattle.bc_machine.specs.Beside.{IsMore};
ghost use Rattle.bc_machine.specs.Controller.{ready, host_acted, control_in, control_of};
ghost use Rattle.bc_machine.specs.Hosting.{insertion_of};
ghost use Rattle.bc_machine.specs.Rows.{action_of, placed_of, all_placed, alone, source_control};
ghost use Rattle.bc_machine.specs.Rows.{IsAlone, IsKeptAction, IsRow};
ghost use Rattle.bc_machine.specs.declared.placed.HostAction.TheVariants as host;
ghost use Rattle.controller_host.specs.declared.controls.Control.TheVariants as control;
ghost use Rattle.mil_bus.specs.Exchange.{now_of};
ghost use Rattle.mil_host.specs.declared.actions.Action.TheVariants.{Transmit};
ghost use Rattle.std.specs.List.{insert};
ghost use Rattle.std.specs.Option.{option_copied};
ghost use Rattle.std.specs.Prelude.{◌≡◌, ◌+◌, ◌<◌, ◌≤◌, ℕ, length, vec_len, vec_capacity, All, IfSome};

use crate::beside::{Beside, Inserted, insert_of};
use crate::placed::{HostAction, Placed};
use arrayvec::ArrayVec;
use controller_host::{Control, Insertion};
use mil_bus::Bus;
use mil_host::{Action, Mark, ModeMark, ReplyGap, ResponseGap, TransmitWords, WordRamp};
use mil_word::Line;

/// An action in a few bytes. One of a terminal that puts up more than one data word, and one of the controller, stands
/// in lists beside the rows.
#[derive(Clone, Copy, Debug)]
pub enum KeptAction {
    /// One data word, for a subaddress of 1 to 29.
    Word { sub: u8, word: u16 },
    /// The data words at this place of their list.
    Put(u32),
    /// The inserted message at this place of theirs.
    Insert(u32),
    /// The action at this place of those that stand whole.
    Whole(u32),
    Busy(bool),
    Service(bool),
    Subsystem(bool),
    Fault(bool),
    Control(bool),
    Vector(u16),
    SelfTest(u16),
    Illegal(Mark),
    Legal(Mark),
    Response(ResponseGap),
    Deaf { line: Line, on: bool },
    Mute { line: Line, on: bool },
    IllegalMode(ModeMark),
    LegalMode(ModeMark),
    Broadcast(bool),
    Power(bool),
    BitWord(u16),
    ServiceOnce,
    Gap(ReplyGap),
    Ramp(WordRamp),
}

/// A placed action.
#[derive(Clone, Copy, Debug)]
pub struct Row {
    pub number: u32,
    pub address: u8,
    pub kept: KeptAction,
}

/// An action behind those that stand whole, which have room for it.
fn kept_whole(action: HostAction, beside: &mut Beside) -> KeptAction
    requires room { length beside.old.lists.wholes < beside.old.capacity }
    requires few { length beside.old.lists.wholes < 4294967295 }
    ensures action { (address : ℕ) → action_of beside.new.lists address result ≡ action }
    ensures kept { IsKeptAction beside.new.lists result }
    ensures more { IsMore beside.old.lists beside.new.lists }
    ensures capacity { beside.new.capacity ≡ beside.old.capacity }
{
    KeptAction::Whole(beside.add_whole(action))
}

/// Data words of a terminal as they are kept: one in the row, more beside it. There is room for a whole action.
fn kept_words(address: u8, put: TransmitWords, beside: &mut Beside) -> KeptAction
    requires room { length beside.old.lists.wholes < beside.old.capacity }
    requires few { length beside.old.lists.wholes < 4294967295 }
    ensures action { action_of beside.new.lists address result ≡ host.Terminal address (Transmit put) }
    ensures kept { IsKeptAction beside.new.lists result }
    ensures more { IsMore beside.old.lists beside.new.lists }
    ensures capacity { beside.new.capacity ≡ beside.old.capacity }
{
    if put.words().len() == 1 {
        return KeptAction::Word {
            sub: put.sub(),
            word: put.words()[0],
        };
    }
    match beside.add_words(put) {
        Ok(place) => KeptAction::Put(place),
        Err(put) => {
            let action = Action::Transmit(put);
            kept_whole(HostAction::Terminal { address, action }, beside)
        }
    }
}

/// An inserted message as it is kept. There is room for a whole action.
fn kept_insert(insertion: Insertion, beside: &mut Beside) -> KeptAction
    requires room { length beside.old.lists.wholes < beside.old.capacity }
    requires few { length beside.old.lists.wholes < 4294967295 }
    ensures action { (address : ℕ) → action_of beside.new.lists address result
        ≡ host.Controller (control.Insert insertion) }
    ensures kept { IsKeptAction beside.new.lists result }
    ensures more { IsMore beside.old.lists beside.new.lists }
    ensures capacity { beside.new.capacity ≡ beside.old.capacity }
{
    match beside.add_insert(insertion) {
        Ok(place) => KeptAction::Insert(place),
        Err(insertion) => {
            let control = Control::Insert(insertion);
            kept_whole(HostAction::Controller(control), beside)
        }
    }
}

/// What the host of the controller asks for as it is kept. There is room for a whole action.
fn kept_control(asked: Control, beside: &mut Beside) -> KeptAction
    requires room { length beside.old.lists.wholes < beside.old.capacity }
    requires few { length beside.old.lists.wholes < 4294967295 }
    ensures action { (address : ℕ) → action_of beside.new.lists address result ≡ host.Controller asked }
    ensures kept { IsKeptAction beside.new.lists result }
    ensures more { IsMore beside.old.lists beside.new.lists }
    ensures capacity { beside.new.capacity ≡ beside.old.capacity }
{
    match asked {
        Control::Insert(insertion) => kept_insert(insertion, beside),
        asked => kept_whole(HostAction::Controller(asked), beside),
    }
}

/// An action of a terminal as it is kept.
fn kept_action(address: u8, action: Action, beside: &mut Beside) -> KeptAction
    requires room { length beside.old.lists.wholes < beside.old.capacity }
    requires few { length beside.old.lists.wholes < 4294967295 }
    ensures action { action_of beside.new.lists address result ≡ host.Terminal address action }
    ensures kept { IsKeptAction beside.new.lists result }
    ensures more { IsMore beside.old.lists beside.new.lists }
    ensures capacity { beside.new.capacity ≡ beside.old.capacity }
{
    match action {
        Action::Transmit(put) => kept_words(address, put, beside),
        Action::Busy(on) => KeptAction::Busy(on),
        Action::Service(on) => KeptAction::Service(on),
        Action::Subsystem(on) => KeptAction::Subsystem(on),
        Action::Fault(on) => KeptAction::Fault(on),
        Action::Control(on) => KeptAction::Control(on),
        Action::Vector(word) => KeptAction::Vector(word),
        Action::SelfTest(word) => KeptAction::SelfTest(word),
        Action::Illegal(mark) => KeptAction::Illegal(mark),
        Action::Legal(mark) => KeptAction::Legal(mark),
        Action::Response(gap) => KeptAction::Response(gap),
        Action::Deaf { line, on } => KeptAction::Deaf { line, on },
        Action::Mute { line, on } => KeptAction::Mute { line, on },
        Action::IllegalMode(mark) => KeptAction::IllegalMode(mark),
        Action::LegalMode(mark) => KeptAction::LegalMode(mark),
        Action::Broadcast(on) => KeptAction::Broadcast(on),
        Action::Power(on) => KeptAction::Power(on),
        Action::BitWord(word) => KeptAction::BitWord(word),
        Action::ServiceOnce => KeptAction::ServiceOnce,
        Action::Gap(gap) => KeptAction::Gap(gap),
        Action::Ramp(ramp) => KeptAction::Ramp(ramp),
    }
}

/// What a host asks for as it is kept, with the address of the row.
fn kept_of(action: HostAction, beside: &mut Beside) -> (u8, KeptAction)
    requires room { length beside.old.lists.wholes < beside.old.capacity }
    requires few { length beside.old.lists.wholes < 4294967295 }
    ensures action { action_of beside.new.lists result.0 result.1 ≡ action }
    ensures kept { IsKeptAction beside.new.lists result.1 }
    ensures more { IsMore beside.old.lists beside.new.lists }
    ensures capacity { beside.new.capacity ≡ beside.old.capacity }
{
    match action {
        HostAction::Terminal { address, action } => (address, kept_action(address, action, beside)),
        HostAction::Controller(control) => (0, kept_control(control, beside)),
    }
}

/// An action of a terminal that stands in a row alone.
fn action_alone(kept: &KeptAction) -> Action
    requires { IsAlone kept.now }
    ensures { result ≡ alone kept.now }
{
    match kept {
        KeptAction::Word { sub, word } => {
            let mut one = ArrayVec::new();
            one.push(*word);
            Action::Transmit(TransmitWords::make(*sub, one))
        }
        KeptAction::Put(_) | KeptAction::Insert(_) | KeptAction::Whole(_) => unreachable!(),
        KeptAction::Busy(on) => Action::Busy(*on),
        KeptAction::Service(on) => Action::Service(*on),
        KeptAction::Subsystem(on) => Action::Subsystem(*on),
        KeptAction::Fault(on) => Action::Fault(*on),
        KeptAction::Control(on) => Action::Control(*on),
        KeptAction::Vector(word) => Action::Vector(*word),
        KeptAction::SelfTest(word) => Action::SelfTest(*word),
        KeptAction::Illegal(mark) => Action::Illegal(*mark),
        KeptAction::Legal(mark) => Action::Legal(*mark),
        KeptAction::Response(gap) => Action::Response(*gap),
        KeptAction::Deaf { line, on } => Action::Deaf {
            line: *line,
            on: *on,
        },
        KeptAction::Mute { line, on } => Action::Mute {
            line: *line,
            on: *on,
        },
        KeptAction::IllegalMode(mark) => Action::IllegalMode(*mark),
        KeptAction::LegalMode(mark) => Action::LegalMode(*mark),
        KeptAction::Broadcast(on) => Action::Broadcast(*on),
        KeptAction::Power(on) => Action::Power(*on),
        KeptAction::BitWord(word) => Action::BitWord(*word),
        KeptAction::ServiceOnce => Action::ServiceOnce,
        KeptAction::Gap(gap) => Action::Gap(*gap),
        KeptAction::Ramp(ramp) => Action::Ramp(*ramp),
    }
}

/// The control of a whole action that sets sources, if it is one.
fn source_control_of(action: &HostAction) -> Option<&Control>
    ensures { option_copied result ≡ source_control (control_in action.now) }
{
    match action {
        HostAction::Terminal { .. } | HostAction::Controller(Control::Insert(_)) => None,
        HostAction::Controller(control) => Some(control),
    }
}

/// The whole action acts on a bus, where it is a terminal's.
fn act_whole(action: &HostAction, bus: &mut Bus)
    ensures bus { bus.new ≡ host_acted bus.old action.now }
    ensures clock { now_of bus.new ≡ now_of bus.old }
{
    if let HostAction::Terminal { address, action } = action {
        bus.act(*address, action);
    }
}

impl Row {
    /// The row of a placed action. There is room for a whole action.
    pub fn of(one: Placed, beside: &mut Beside) -> Row
        requires room { length beside.old.lists.wholes < beside.old.capacity }
        requires few { length beside.old.lists.wholes < 4294967295 }
        ensures placed { placed_of beside.new.lists result ≡ one }
        ensures row { IsRow beside.new.lists result }
        ensures more { IsMore beside.old.lists beside.new.lists }
        ensures capacity { beside.new.capacity ≡ beside.old.capacity }
    {
        let Placed { number, action } = one;
        let (address, kept) = kept_of(action, beside);
        Row {
            number,
            address,
            kept,
        }
    }

    /// What the host asks for, with what stands beside the row.
    fn action(&self, beside: &Beside) -> HostAction
        requires { IsRow beside.now.lists self.now }
        ensures { result ≡ action_of beside.now.lists self.now.address self.now.kept }
    {
        match &self.kept {
            KeptAction::Put(place) => HostAction::Terminal {
                address: self.address,
                action: Action::Transmit(beside.words(*place).copy()),
            },
            KeptAction::Insert(place) => {
                HostAction::Controller(Control::Insert(beside.insert(*place).insertion()))
            }
            KeptAction::Whole(place) => beside.whole(*place).copy(),
            kept => HostAction::Terminal {
                address: self.address,
                action: action_alone(kept),
            },
        }
    }

    /// The placed action, with what stands beside the row.
    pub fn placed(&self, beside: &Beside) -> Placed
        requires { IsRow beside.now.lists self.now }
        ensures { result ≡ placed_of beside.now.lists self.now }
    {
        Placed {
            number: self.number,
            action: self.action(beside),
        }
    }

    /// What the host asks for, where it stands whole beside the row.
    pub fn whole<'a>(&self, beside: &'a Beside) -> Option<&'a HostAction>
        requires { IsRow beside.now.lists self.now }
        ensures { IfSome result (λ a. a.now ≡ (placed_of beside.now.lists self.now).action) }
    {
        match &self.kept {
            KeptAction::Whole(place) => Some(beside.whole(*place)),
            _ => None,
        }
    }

    /// The action of the controller's host that it stands for, if that sets sources.
    pub fn source_control<'a>(&self, beside: &'a Beside) -> Option<&'a Control>
        requires { IsRow beside.now.lists self.now }
        ensures { option_copied result ≡ source_control (control_of (placed_of beside.now.lists self.now)) }
    {
        match &self.kept {
            KeptAction::Whole(place) => source_control_of(beside.whole(*place)),
            _ => None,
        }
    }

    /// The message that it puts into the queue, if it does.
    pub fn insertion<'a>(&self, beside: &'a Beside) -> Option<Inserted<'a>>
        requires { IsRow beside.now.lists self.now }
        ensures { result ≡ insertion_of (placed_of beside.now.lists self.now).action }
    {
        match &self.kept {
            KeptAction::Insert(place) => Some(beside.insert(*place)),
            KeptAction::Whole(place) => insert_of(beside.whole(*place)),
            _ => None,
        }
    }

    /// The action acts on a bus, where it is a terminal's.
    fn act(&self, bus: &mut Bus, beside: &Beside)
        requires { IsRow beside.now.lists self.now }
        ensures bus { bus.new ≡ host_acted bus.old (placed_of beside.now.lists self.now).action }
        ensures clock { now_of bus.new ≡ now_of bus.old }
    {
        match &self.kept {
            KeptAction::Put(place) => {
                let put = beside.words(*place).copy();
                bus.act(self.address, &Action::Transmit(put));
            }
            KeptAction::Insert(_) => {}
            KeptAction::Whole(place) => act_whole(beside.whole(*place), bus),
            kept => {
                bus.act(self.address, &action_alone(kept));
            }
        }
    }
}

/// Puts a row at a place among others, which have room for it.
pub fn insert_row(rows: &mut Vec<Row>, place: usize, row: Row)
    requires place { place ≤ vec_len rows.old }
    requires room { vec_len rows.old < vec_capacity rows.old }
    ensures rows { rows.new.items ≡ insert rows.old.items place row }
    ensures len { vec_len rows.new ≡ vec_len rows.old + 1 }
    ensures capacity { vec_capacity rows.new ≡ vec_capacity rows.old }
{
    let Row {
        number,
        address,
        kept,
    } = row;
    let row = Row {
        number,
        address,
        kept,
    };
    // There is room for it.
    let _ = rows.insert(place, row);
}

/// The terminals' actions of the rows of a number act, in their order.
pub fn act_at(bus: &mut Bus, rows: &[Row], beside: &Beside, number: u32)
    requires { All (IsRow beside.now.lists) rows.now }
    ensures bus { bus.new ≡ ready (all_placed beside.now.lists rows.now) number bus.old }
    ensures clock { now_of bus.new ≡ now_of bus.old }
{
    for row in rows {
        if row.number == number {
            row.act(bus, beside);
        }
    }
}
