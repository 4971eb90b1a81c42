//! The data words of a terminal, as lines.
ghost use Rattle.bench_state.specs.DataText.{data_line, data_lines, data_shown};
ghost use Rattle.mil_word.specs.Fields.{highest_subaddress};
ghost use Rattle.std.specs.Io.KnownBytes.{Appends};
ghost use Rattle.std.specs.Prelude.{◌≤◌, OnOk};

use crate::printing::print_words;
use mil_terminal::Terminal;
use mil_word::fields::HIGHEST_SUBADDRESS;
use std::io;
use std::io::Write;

/// Prints the words of a subaddress as a line, as `terminal 5 subaddress 1 received 0001 0002`.
fn print_line<W: Write>(
    out: &mut W,
    address: u8,
    subaddress: u8,
    name: &str,
    words: &[u16],
) -> io::Result<()>
    ensures { OnOk result (Appends (W.contents out.old) (W.contents out.new)
        (data_line address subaddress name.now words.now)) }
{
    write!(out, "terminal {address} subaddress {subaddress}{name}")?;
    print_words(out, words)?;
    writeln!(out, "")
}

/// Prints the words of a terminal at a subaddress of 1 to 30.
#[tactic(auto, unfolding(crate::specs::DataText::data_lines))]
fn print_lines<W: Write>(out: &mut W, terminal: &Terminal, subaddress: u8) -> io::Result<()>
    requires low { 1 ≤ subaddress }
    requires high { subaddress ≤ highest_subaddress }
    ensures { OnOk result (Appends (W.contents out.old) (W.contents out.new) (data_lines subaddress terminal.now)) }
{
    let own = terminal.address();
    print_line(
        out,
        own,
        subaddress,
        " received",
        terminal.received(subaddress),
    )?;
    print_line(
        out,
        own,
        subaddress,
        " received from all",
        terminal.received_from_all(subaddress),
    )?;
    print_line(
        out,
        own,
        subaddress,
        " to transmit",
        terminal.transmit_words(subaddress),
    )
}

/// Prints the words of a terminal at a subaddress, if it is the one of the address.
pub(crate) fn print_data<W: Write>(
    out: &mut W,
    address: u8,
    subaddress: u8,
    terminal: &Terminal,
) -> io::Result<()>
    ensures { OnOk result (Appends (W.contents out.old) (W.contents out.new)
        (data_shown address subaddress terminal.now)) }
{
    if terminal.address() == address && 1 <= subaddress && subaddress <= HIGHEST_SUBADDRESS {
        return print_lines(out, terminal, subaddress);
    }
    Ok(())
}
