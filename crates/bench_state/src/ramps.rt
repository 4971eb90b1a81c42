//! The ramps of a terminal, as lines.
ghost use Rattle.bench_state.specs.Marks.{name_if};
ghost use Rattle.bench_state.specs.RampText.{is_begun, place_text, ramp_lines, ramp_text, ramps_head, ramps_line};
ghost use Rattle.bench_state.specs.RampText.{shown};
ghost use Rattle.mil_terminal.specs.PutUp.{ramp_at};
ghost use Rattle.mil_word.specs.Fields.{highest_put_up, most_words};
ghost use Rattle.std.specs.Io.KnownBytes.{Appends};
ghost use Rattle.std.specs.Prelude.{◌≡◌, ◌<◌, ◌≤◌, ◌||◌, not, IfOk, OnOk, slice_index_or};

use crate::marks::print_end_if;
use mil_host::DataWord;
use mil_terminal::Terminal;
use mil_word::fields::{HIGHEST_PUT_UP, MOST_WORDS};
use std::io;
use std::io::Write;

/// The word at a place, counted from 0, 0 where there is none.
fn word_at(words: &[u16], place: usize) -> u16
    ensures { result ≡ slice_index_or words.now place 0 }
{
    match words.get(place) {
        Some(word) => *word,
        None => 0,
    }
}

/// Prints what stands in front of the ramps of a subaddress, where none stands there yet.
fn print_head<W: Write>(out: &mut W, begun: bool, address: u8, subaddress: u8) -> io::Result<()>
    ensures { OnOk result (Appends (W.contents out.old) (W.contents out.new)
        (name_if (not begun) (ramps_head address subaddress))) }
{
    if begun {
        return Ok(());
    }
    write!(out, "terminal {address} subaddress {subaddress} ramps")
}

/// Prints a ramp: its place, counted from 0, its next word, and what it adds.
fn print_ramp<W: Write>(out: &mut W, place: u8, next: u16, add: u16) -> io::Result<()>
    requires { place < most_words }
    ensures { OnOk result (Appends (W.contents out.old) (W.contents out.new) (ramp_text place next add)) }
{
    let number = place + 1;
    let next = DataWord(next);
    let add = DataWord(add);
    write!(out, " {number} {next} {add}")
}

/// Prints the ramp at a place, counted from 0, of a subaddress, if there is one; whether one stands there by then.
fn print_place<W: Write>(
    out: &mut W,
    begun: bool,
    terminal: &Terminal,
    subaddress: u8,
    place: u8,
) -> io::Result<bool>
    requires low { 1 ≤ subaddress }
    requires high { subaddress ≤ highest_put_up }
    requires place { place < most_words }
    ensures begun { IfOk result (λ now. now ≡ (begun || is_begun (place_text terminal.now subaddress place
        (ramp_at subaddress place terminal.now.history)))) }
    ensures text { OnOk result (Appends (W.contents out.old) (W.contents out.new)
        (shown begun terminal.now.own subaddress
        (place_text terminal.now subaddress place (ramp_at subaddress place terminal.now.history)))) }
{
    match terminal.ramp(subaddress, place) {
        None => Ok(begun),
        Some(add) => {
            print_head(out, begun, terminal.address(), subaddress)?;
            let next = word_at(terminal.transmit_words(subaddress), usize::from(place));
            print_ramp(out, place, next, add)?;
            Ok(true)
        }
    }
}

/// Prints the line of a subaddress, if it has ramps.
#[tactic(auto, unfolding(crate::specs::RampText::ramps_line))]
fn print_line<W: Write>(out: &mut W, terminal: &Terminal, subaddress: u8) -> io::Result<()>
    requires low { 1 ≤ subaddress }
    requires high { subaddress ≤ highest_put_up }
    ensures { OnOk result (Appends (W.contents out.old) (W.contents out.new) (ramps_line terminal.now subaddress)) }
{
    let mut begun = false;
    for place in 0..MOST_WORDS {
        begun = print_place(out, begun, terminal, subaddress, place)?;
    }
    print_end_if(out, begun)
}

/// Prints the lines of the ramps, as `terminal 5 subaddress 3 ramps 2 0101 0001`, a line for each subaddress that has
/// some.
#[tactic(auto, unfolding(crate::specs::RampText::ramp_lines))]
pub(crate) fn print_ramps<W: Write>(out: &mut W, terminal: &Terminal) -> io::Result<()>
    ensures { OnOk result (Appends (W.contents out.old) (W.contents out.new) (ramp_lines terminal.now)) }
{
    for before in 0..HIGHEST_PUT_UP {
        print_line(out, terminal, before + 1)?;
    }
    Ok(())
}
