//! What the terminals of a channel hold, as lines.
ghost use Rattle.bench_state.specs.StateText.{channel_line, channel_text, field, host_line, host_state};
ghost use Rattle.bench_state.specs.StateText.{lines_text, off_text, set_lines, terminal_line, terminal_lines};
ghost use Rattle.bench_state.specs.StateText.{terminal_text};
ghost use Rattle.std.specs.Io.KnownBytes.{Appends};
ghost use Rattle.std.specs.Prelude.{◌≡◌, ◌++◌, OnOk, codes};

use crate::controller::print_controller;
use crate::data::print_data;
use crate::details::Detail;
use crate::marks::{print_kinds, print_marks};
use crate::ramps::print_ramps;
use bc_machine::Machine;
use mil_bus::Bus;
use mil_host::DataWord;
use mil_terminal::Terminal;
use mil_word::Line;
use std::io;
use std::io::Write;

/// The lines for which something holds: whether for A, and whether for B.
fn lines(a: bool, b: bool) -> &'static str
    ensures { result.now ≡ lines_text a b }
{
    match (a, b) {
        (false, false) => "-",
        (true, false) => "A",
        (false, true) => "B",
        (true, true) => "AB",
    }
}

/// Prints a name and a register.
fn print_field<W: Write>(out: &mut W, name: &str, value: u16) -> io::Result<()>
    ensures { OnOk result (Appends (W.contents out.old) (W.contents out.new) (field name.now value)) }
{
    let digits = DataWord(value);
    write!(out, "{name}{digits}")
}

/// Prints which transmitters are off, where these are on, and the end of the line.
fn print_off<W: Write>(out: &mut W, a: bool, b: bool) -> io::Result<()>
    ensures { OnOk result (Appends (W.contents out.old) (W.contents out.new)
        (codes " off " ++ off_text a b ++ codes "\n")) }
{
    let off = lines(!a, !b);
    writeln!(out, " off {off}")
}

/// Prints the line of a terminal, as
/// `terminal 5 status 2800 last 2823 vector 0000 bit 0000 sync 0000 off -`.
fn print_terminal<W: Write>(out: &mut W, terminal: &Terminal) -> io::Result<()>
    ensures { OnOk result (Appends (W.contents out.old) (W.contents out.new) (terminal_line terminal.now)) }
{
    write!(out, "terminal {}", terminal.address())?;
    print_field(out, " status ", terminal.status())?;
    print_field(out, " last ", terminal.last_command())?;
    print_field(out, " vector ", terminal.vector())?;
    print_field(out, " bit ", terminal.bit_word())?;
    print_field(out, " sync ", terminal.sync_word())?;
    print_off(
        out,
        terminal.transmitter_on(Line::A),
        terminal.transmitter_on(Line::B),
    )
}

/// Prints the line of what its host set, as `terminal 5 deaf - mute A`.
#[tactic(auto, unfolding(crate::specs::StateText::host_line))]
fn print_host<W: Write>(out: &mut W, terminal: &Terminal) -> io::Result<()>
    ensures { OnOk result (Appends (W.contents out.old) (W.contents out.new) (host_line terminal.now)) }
{
    let address = terminal.address();
    let deaf = lines(terminal.deaf(Line::A), terminal.deaf(Line::B));
    let mute = lines(terminal.mute(Line::A), terminal.mute(Line::B));
    writeln!(out, "terminal {address} deaf {deaf} mute {mute}")
}

/// Prints the lines of what its host set.
fn print_set<W: Write>(out: &mut W, terminal: &Terminal) -> io::Result<()>
    ensures { OnOk result (Appends (W.contents out.old) (W.contents out.new) (set_lines terminal.now)) }
{
    print_host(out, terminal)?;
    print_marks(out, terminal)?;
    print_ramps(out, terminal)?;
    print_kinds(out, terminal)
}

/// Prints what is to be shown of a terminal.
fn print_detail<W: Write>(out: &mut W, detail: Detail, terminal: &Terminal) -> io::Result<()>
    ensures { OnOk result (Appends (W.contents out.old) (W.contents out.new) (terminal_text detail terminal.now)) }
{
    match detail {
        Detail::Registers => print_terminal(out, terminal),
        Detail::Host => {
            print_terminal(out, terminal)?;
            print_set(out, terminal)
        }
        Detail::Data {
            address,
            subaddress,
        } => print_data(out, address, subaddress, terminal),
    }
}

/// Prints what is to be shown of each terminal of a bus, in order of address.
#[tactic(auto, unfolding(crate::specs::StateText::terminal_lines))]
fn print_terminals<W: Write>(out: &mut W, detail: Detail, bus: &Bus) -> io::Result<()>
    ensures { OnOk result (Appends (W.contents out.old) (W.contents out.new) (terminal_lines detail bus.now)) }
{
    for address in 0..31u8 {
        if let Some(terminal) = bus.terminal(address) {
            print_detail(out, detail, terminal)?;
        }
    }
    Ok(())
}

/// Prints what the host of the controller has asked for, where what hosts set is to be shown.
fn print_asked<W: Write>(out: &mut W, detail: Detail, machine: &Machine) -> io::Result<()>
    ensures { OnOk result (Appends (W.contents out.old) (W.contents out.new)
        (host_state detail machine.now.placed machine.now.made)) }
{
    match detail {
        Detail::Host => print_controller(out, machine.queued(), machine.sources().rows()),
        Detail::Registers | Detail::Data { .. } => Ok(()),
    }
}

/// Prints the line of a channel, with the number of the last message that its bus has met.
#[tactic(auto, unfolding(crate::specs::StateText::channel_line))]
fn print_number<W: Write>(out: &mut W, channel: u16, number: u32) -> io::Result<()>
    ensures { OnOk result (Appends (W.contents out.old) (W.contents out.new) (channel_line channel number)) }
{
    writeln!(out, "channel {channel} number {number}")
}

/// Prints what the terminals of a channel hold: a line for the channel, with the number of the last message that its
/// bus has met, and behind it what the detail shows of each terminal; with what hosts set also what the host of the
/// controller has asked for. It takes no memory.
pub fn print_channel<W: Write>(
    out: &mut W,
    detail: Detail,
    channel: u16,
    number: u32,
    machine: &Machine,
) -> io::Result<()>
    ensures { OnOk result (Appends (W.contents out.old) (W.contents out.new)
        (channel_text detail channel number machine.now.placed machine.now.point.state machine.now.made)) }
{
    print_number(out, channel, number)?;
    print_terminals(out, detail, machine.bus())?;
    print_asked(out, detail, machine)
}
