//! What the host of a terminal has set on or off.
ghost use Rattle.bench_state.specs.Marks.{end_if, gap_part, host_parts, is_some_part, kinds_line, lead, listed};
ghost use Rattle.bench_state.specs.Marks.{mark_text, marks_line, mode_part, modes_below, name_if, part_if};
ghost use Rattle.mil_word.specs.Fields.{field_values};
ghost use Rattle.std.specs.Io.KnownBytes.{Appends};
ghost use Rattle.std.specs.Prelude.{◌≡◌, ◌<◌, ◌||◌, false, IfOk, OnOk};

use mil_host::ModeMark;
use mil_terminal::{HostConditions, Terminal};
use std::io;
use std::io::Write;

/// Prints the line of what is on, as `terminal 5 marks busy control`.
#[tactic(auto, unfolding(crate::specs::Marks::marks_line))]
pub(crate) fn print_marks<W: Write>(out: &mut W, terminal: &Terminal) -> io::Result<()>
    ensures { OnOk result (Appends (W.contents out.old) (W.contents out.new) (marks_line terminal.now)) }
{
    let address = terminal.address();
    let on = terminal.conditions_set();
    let none = text_if(!is_any_on(&on), " -");
    let busy = text_if(on.busy, " busy");
    let service = text_if(on.service, " service");
    let subsystem = text_if(on.subsystem, " subsystem");
    let fault = text_if(on.fault, " fault");
    let control = text_if(on.control, " control");
    writeln!(
        out,
        "terminal {address} marks{none}{busy}{service}{subsystem}{fault}{control}"
    )
}

/// A text where something is on, and none where it is not.
fn text_if(on: bool, text: &'static str) -> &'static str
    ensures { result.now ≡ name_if on text.now }
{
    if on { text } else { "" }
}

/// Whether anything is on that has a word in that line.
fn is_any_on(on: &HostConditions) -> bool
    ensures { result ≡ (on.now.busy || on.now.service || on.now.subsystem || on.now.fault || on.now.control) }
{
    on.busy || on.service || on.subsystem || on.fault || on.control
}

/// Prints what stands in front of the next part.
fn print_lead<W: Write>(out: &mut W, begun: bool, address: u8) -> io::Result<()>
    ensures { OnOk result (Appends (W.contents out.old) (W.contents out.new) (lead begun address)) }
{
    if begun {
        write!(out, ", ")
    } else {
        write!(out, "terminal {address} host ")
    }
}

/// Prints a part where something is on, behind those before it; whether a part stands there by then.
fn print_part_if<W: Write>(
    out: &mut W,
    begun: bool,
    address: u8,
    on: bool,
    part: &str,
) -> io::Result<bool>
    ensures begun { IfOk result (λ now. now ≡ (begun || is_some_part (part_if on part.now))) }
    ensures text { OnOk result (Appends (W.contents out.old) (W.contents out.new)
        (listed begun address (part_if on part.now))) }
{
    if !on {
        return Ok(begun);
    }
    print_lead(out, begun, address)?;
    write!(out, "{part}")?;
    Ok(true)
}

/// Prints the gap that was set apart from the response time, if one was.
fn print_gap<W: Write>(out: &mut W, begun: bool, address: u8, gap: Option<u16>) -> io::Result<bool>
    ensures begun { IfOk result (λ now. now ≡ (begun || is_some_part (gap_part gap))) }
    ensures text { OnOk result (Appends (W.contents out.old) (W.contents out.new)
        (listed begun address (gap_part gap))) }
{
    match gap {
        None => Ok(begun),
        Some(ticks) => {
            print_lead(out, begun, address)?;
            write!(out, "gap {ticks}")?;
            Ok(true)
        }
    }
}

/// Prints a mark of mode commands as illegal where it is set, behind those before it; whether a part stands there by
/// then.
fn print_mark_if<W: Write>(
    out: &mut W,
    begun: bool,
    address: u8,
    on: bool,
    mark: ModeMark,
) -> io::Result<bool>
    ensures begun { IfOk result (λ now. now ≡ (begun || is_some_part (part_if on (mark_text mark)))) }
    ensures text { OnOk result (Appends (W.contents out.old) (W.contents out.new)
        (listed begun address (part_if on (mark_text mark)))) }
{
    if !on {
        return Ok(begun);
    }
    print_lead(out, begun, address)?;
    write!(out, "illegal {mark}")?;
    Ok(true)
}

/// Prints the mark of mode commands with this T/R bit and mode code, where it is set.
fn print_mode<W: Write>(
    out: &mut W,
    begun: bool,
    terminal: &Terminal,
    transmit: bool,
    code: u8,
) -> io::Result<bool>
    requires { code < field_values }
    ensures begun { IfOk result (λ now. now ≡ (begun || is_some_part (mode_part terminal.now transmit code))) }
    ensures text { OnOk result (Appends (W.contents out.old) (W.contents out.new)
        (listed begun terminal.now.own (mode_part terminal.now transmit code))) }
{
    let mark = ModeMark::make(transmit, code);
    let on = terminal.marks_mode(transmit, code);
    print_mark_if(out, begun, terminal.address(), on, mark)
}

/// Prints the marks of mode commands with this T/R bit.
fn print_modes<W: Write>(
    out: &mut W,
    begun: bool,
    terminal: &Terminal,
    transmit: bool,
) -> io::Result<bool>
    ensures begun { IfOk result (λ now. now
        ≡ (begun || is_some_part (modes_below terminal.now transmit field_values))) }
    ensures text { OnOk result (Appends (W.contents out.old) (W.contents out.new)
        (listed begun terminal.now.own (modes_below terminal.now transmit field_values))) }
{
    let mut begun_now = begun;
    for code in 0..32u8 {
        begun_now = print_mode(out, begun_now, terminal, transmit, code)?;
    }
    Ok(begun_now)
}

/// Prints the line of what is not as at first, as `terminal 5 host power off, gap 30`, if anything is.
#[tactic(auto, unfolding(crate::specs::Marks::kinds_line))]
pub(crate) fn print_kinds<W: Write>(out: &mut W, terminal: &Terminal) -> io::Result<()>
    ensures { OnOk result (Appends (W.contents out.old) (W.contents out.new) (kinds_line terminal.now)) }
{
    let begun = print_parts(out, terminal)?;
    print_end_if(out, begun)
}

/// Prints the end of a line where it was begun.
pub(crate) fn print_end_if<W: Write>(out: &mut W, begun: bool) -> io::Result<()>
    ensures { OnOk result (Appends (W.contents out.old) (W.contents out.new) (end_if begun)) }
{
    if begun {
        return writeln!(out, "");
    }
    Ok(())
}

/// Prints what is not as at first; whether anything is.
fn print_parts<W: Write>(out: &mut W, terminal: &Terminal) -> io::Result<bool>
    ensures begun { IfOk result (λ now. now ≡ is_some_part (host_parts terminal.now)) }
    ensures text { OnOk result (Appends (W.contents out.old) (W.contents out.new)
        (listed false terminal.now.own (host_parts terminal.now))) }
{
    let address = terminal.address();
    let set = terminal.conditions_set();
    let begun = print_part_if(out, false, address, terminal.is_off(), "power off")?;
    let begun = print_part_if(out, begun, address, !set.broadcast, "broadcast off")?;
    let begun = print_part_if(out, begun, address, set.once, "service once")?;
    let begun = print_gap(out, begun, address, set.gap)?;
    let begun = print_modes(out, begun, terminal, true)?;
    print_modes(out, begun, terminal, false)
}
