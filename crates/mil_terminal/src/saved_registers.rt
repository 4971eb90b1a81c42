//! What is kept of a terminal's registers.
ghost use Rattle.mil_terminal.specs.SavingHost.{kept_marks, marks_kept, window_kept, settings_kept};
ghost use Rattle.std.specs.Prelude.{◌≡◌, IfOk};

use crate::addresses::Address;
use crate::by_lines::ByLine;
use crate::conditions::Conditions;
use crate::host::Settings;
use crate::marks::Marks;
use crate::pending::Pending;
use crate::registers::Registers;
use crate::saved_blocks::SavedBlock;
use crate::switches::Switches;
use crate::synced::Synced;
use mil_line::Gap;
use std::alloc::{AllocError, Global};
use std::marker::Model;

/// What few terminals have when they are saved: an undecided window, and marks.
#[derive(Drop)]
pub struct Rare {
    window: Option<Pending>,
    marks: Option<Box<Marks>>,
}

/// What is kept of the host's settings, the marks excepted.
#[derive(Clone, Copy)]
pub struct SavedSettings {
    vector: u16,
    self_test: u16,
    response: Gap,
    bit: u16,
    busy: bool,
    service: bool,
    subsystem: bool,
    fault: bool,
    control: bool,
    by_gap: bool,
    once: bool,
    broadcast: bool,
    off: bool,
    deaf: ByLine,
    mute: ByLine,
}

/// What is kept of the registers: what is rare only where it is there, and the words packed. The widest fields stand
/// first, since fields lie in this order.
#[derive(Drop)]
pub struct SavedRegisters {
    block: SavedBlock,
    rare: Option<Box<Rare>>,
    host: SavedSettings,
    synced: Synced,
    last_command: u16,
    conditions: Conditions,
    switches: Switches,
    own: Address,
}

impl Model for SavedRegisters {
    ghost use Rattle.mil_terminal.specs.Saving.{registers_kept};
    ghost use Rattle.mil_terminal.specs.declared.registers.Registers.{Registers};

    ghost Value = { Registers };

    ghost view = { registers_kept };
}

impl Marks {
    /// The same marks, if one is set.
    fn save(&self, alloc: Global) -> Result<Option<Box<Marks>>, AllocError>
        ensures { IfOk result (λ kept. kept_marks kept ≡ self.now) }
    {
        if self.is_empty() {
            return Ok(None);
        }
        Ok(Some(Box::new(alloc, self.copy())?))
    }
}

impl Settings {
    /// The same settings, to be kept, the marks excepted.
    pub(crate) fn save(&self) -> SavedSettings
        ensures { settings_kept result self.now.marks ≡ self.now }
    {
        SavedSettings {
            vector: self.vector,
            self_test: self.self_test,
            response: self.response,
            busy: self.busy,
            service: self.service,
            subsystem: self.subsystem,
            fault: self.fault,
            control: self.control,
            bit: self.bit,
            by_gap: self.by_gap,
            once: self.once,
            broadcast: self.broadcast,
            off: self.off,
            deaf: self.deaf,
            mute: self.mute,
        }
    }
}

impl SavedSettings {
    /// The settings that were kept, with these marks.
    pub(crate) fn settings(&self, marks: Marks) -> Settings
        ensures { result ≡ settings_kept self.now marks }
    {
        Settings {
            busy: self.busy,
            service: self.service,
            subsystem: self.subsystem,
            fault: self.fault,
            control: self.control,
            vector: self.vector,
            self_test: self.self_test,
            response: self.response,
            bit: self.bit,
            by_gap: self.by_gap,
            once: self.once,
            broadcast: self.broadcast,
            off: self.off,
            marks,
            deaf: self.deaf,
            mute: self.mute,
        }
    }
}

/// The same window, if there is one.
fn same_window(window: &Option<Pending>) -> Option<Pending>
    ensures { result ≡ window.now }
{
    match window {
        Some(pending) => Some(pending.copy()),
        None => None,
    }
}

/// The window and the marks, if there are any.
fn saved_rare(
    alloc: Global,
    window: &Option<Pending>,
    marks: &Marks,
) -> Result<Option<Box<Rare>>, AllocError>
    ensures window { IfOk result (λ kept. window_kept kept ≡ window.now) }
    ensures marks { IfOk result (λ kept. marks_kept kept ≡ marks.now) }
{
    let marks = marks.save(alloc)?;
    if window.is_none() && marks.is_none() {
        return Ok(None);
    }
    let window = same_window(window);
    Ok(Some(Box::new(alloc, Rare { window, marks })?))
}

/// The window that was kept.
fn window_of(kept: &Option<Box<Rare>>) -> Option<Pending>
    ensures { result ≡ window_kept kept.now }
{
    match kept {
        Some(rare) => same_window(&rare.window),
        None => None,
    }
}

impl Rare {
    /// The marks.
    fn marks(&self) -> Marks
        ensures { result ≡ kept_marks self.now.marks }
    {
        match &self.marks {
            Some(marks) => marks.copy(),
            None => Marks::none(),
        }
    }
}

/// The marks that were kept.
fn marks_of(kept: &Option<Box<Rare>>) -> Marks
    ensures { result ≡ marks_kept kept.now }
{
    match kept {
        Some(rare) => rare.marks(),
        None => Marks::none(),
    }
}

impl Registers {
    /// The same registers, to be kept.
    pub fn save(&self) -> Result<SavedRegisters, AllocError>
        ensures { IfOk result (λ s. s ≡ self.now) }
    {
        let alloc = self.block.allocator();
        Ok(SavedRegisters {
            block: self.block.save()?,
            rare: saved_rare(alloc, &self.window, &self.host.marks)?,
            host: self.host.save(),
            synced: self.synced,
            last_command: self.last_command,
            conditions: self.conditions,
            switches: self.switches,
            own: self.own,
        })
    }

    /// Goes to what was kept, in its own memory.
    pub fn restore(&mut self, saved: &SavedRegisters)
        ensures { self.new ≡ saved.now }
    {
        self.own = saved.own;
        self.window = window_of(&saved.rare);
        self.host = saved.host.settings(marks_of(&saved.rare));
        self.conditions = saved.conditions;
        self.switches = saved.switches;
        self.synced = saved.synced;
        self.last_command = saved.last_command;
        self.block.restore(&saved.block);
    }
}

impl SavedRegisters {
    /// The address.
    pub fn own(&self) -> Address
        ensures { result ≡ self.now.own }
    {
        self.own
    }
}
