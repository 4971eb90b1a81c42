//! The tables of a page: messages by terminal, direction and subaddress, and the load over time.
ghost use Rattle.bench_stat.specs.PageText as spec;
ghost use Rattle.bench_stat.specs.UnitText.{column, word_column};
ghost use Rattle.std.specs.Io.KnownBytes.{Appends};
ghost use Rattle.std.specs.List.{list_any};
ghost use Rattle.std.specs.Prelude.{◌≡◌, ◌++◌, [], if◌then◌else◌, OnOk, codes};

use crate::entries::parts_of;
use crate::flows::Flow;
use crate::printing::print_address;
use crate::slices::Slice;
use crate::units::{hundredths, rate_in, tenths};
use mil_word::fields::{MODE_SUBADDRESS_OF_ONES, MODE_SUBADDRESS_OF_ZEROS};
use std::io;
use std::io::Write;

/// The columns of the messages by terminal, direction and subaddress.
const COLUMNS: &str =
    "  terminal  T/R  subaddress   messages     errors  least gap us  greatest gap us    per second";

/// The bar of a full load.
const BAR: [u8; 50] = [b'#'; 50];

/// How many hundredths of a per cent a mark of the bar stands for.
const MARK: u64 = 200;

/// How many ticks of 0.1 µs a second has.
const SECOND: u64 = 10_000_000;

/// Writes a line for each terminal, direction and subaddress with messages, under a line with the names of the columns.
/// The span is the channel's, in ticks; None where times are not known.
#[tactic(auto, unfolding(crate::specs::PageText::entry_lines))]
pub(crate) fn print_subaddresses<W: Write>(
    out: &mut W,
    flows: &[Flow],
    span: Option<u64>,
) -> io::Result<()>
    ensures { OnOk result (Appends (W.contents out.old) (W.contents out.new) (spec.entry_lines span flows.now)) }
{
    print_columns(out, has_any(flows))?;
    for entry in 0..flows.len() {
        print_met(out, entry, &flows[entry], span)?;
    }
    Ok(())
}

/// Whether any of these has messages.
fn has_any(flows: &[Flow]) -> bool
    ensures { result ≡ list_any (λ f. spec.has_messages f) flows.now }
{
    for flow in flows {
        if flow.messages > 0 {
            return true;
        }
    }
    false
}

/// Writes the names of the columns, where there are messages.
fn print_columns<W: Write>(out: &mut W, met: bool) -> io::Result<()>
    ensures { OnOk result (Appends (W.contents out.old) (W.contents out.new)
        (if met then spec.entries_head else [])) }
{
    if met {
        return writeln!(out, "{COLUMNS}");
    }
    Ok(())
}

/// Writes the line of an entry, where it has messages.
fn print_met<W: Write>(out: &mut W, entry: usize, flow: &Flow, span: Option<u64>) -> io::Result<()>
    ensures { OnOk result (Appends (W.contents out.old) (W.contents out.new) (spec.met_line span entry flow.now)) }
{
    if flow.messages == 0 {
        return Ok(());
    }
    print_entry(out, entry, flow, span)
}

/// Writes the line of an entry, which is a terminal, a direction and a subaddress. The address of all terminals is
/// 'all', a mode command's subaddress is 'mode 0' or 'mode 31', and the rate is '-' where no time passed or times are
/// not known.
fn print_entry<W: Write>(
    out: &mut W,
    entry: usize,
    flow: &Flow,
    span: Option<u64>,
) -> io::Result<()>
    ensures { OnOk result (Appends (W.contents out.old) (W.contents out.new) (spec.entry_line span entry flow.now)) }
{
    let (address, direction, subaddress) = parts_of(entry);
    print_address(out, address)?;
    print_direction(out, direction)?;
    print_subaddress(out, subaddress)?;
    print_counts(out, flow)?;
    print_gap_columns(out, flow, span.is_some())?;
    print_rate(out, rate_in(flow.messages, span))
}

/// Writes the letter of a direction in its column.
fn print_direction<W: Write>(out: &mut W, direction: &str) -> io::Result<()>
    ensures { OnOk result (Appends (W.contents out.old) (W.contents out.new) (word_column 5 direction.now)) }
{
    write!(out, "{direction:>5}")
}

/// Writes a subaddress in its column.
fn print_subaddress<W: Write>(out: &mut W, subaddress: usize) -> io::Result<()>
    ensures { OnOk result (Appends (W.contents out.old) (W.contents out.new) (spec.subaddress_column subaddress)) }
{
    if subaddress == usize::from(MODE_SUBADDRESS_OF_ZEROS)
        || subaddress == usize::from(MODE_SUBADDRESS_OF_ONES)
    {
        return write!(out, "     mode {subaddress:>2}");
    }
    write!(out, "{subaddress:>12}")
}

/// Writes how many messages an entry has, and how many with an error.
fn print_counts<W: Write>(out: &mut W, flow: &Flow) -> io::Result<()>
    ensures { OnOk result (Appends (W.contents out.old) (W.contents out.new)
        (codes " " ++ (column 10 flow.now.messages ++ (codes " " ++ column 10 flow.now.errors)))) }
{
    let (messages, errors) = (flow.messages, flow.errors);
    write!(out, " {messages:>10} {errors:>10}")
}

/// Writes the least and the greatest gap of an entry in µs, '-' where it has none or times are not known.
fn print_gap_columns<W: Write>(out: &mut W, flow: &Flow, timed: bool) -> io::Result<()>
    ensures { OnOk result (Appends (W.contents out.old) (W.contents out.new) (spec.gap_columns flow.now timed)) }
{
    if flow.greatest_gap < 1 || !timed {
        return write!(out, "             -                -");
    }
    let (least, least_part) = tenths(flow.least_gap);
    let (greatest, greatest_part) = tenths(flow.greatest_gap);
    write!(
        out,
        " {least:>11}.{least_part} {greatest:>14}.{greatest_part}"
    )
}

/// Writes a rate in its column, and ends the line.
fn print_rate<W: Write>(out: &mut W, rate: Option<u64>) -> io::Result<()>
    ensures { OnOk result (Appends (W.contents out.old) (W.contents out.new) (spec.rate_column rate)) }
{
    let Some(rate) = rate else {
        return writeln!(out, "             -");
    };
    let (whole, part) = hundredths(rate);
    writeln!(out, " {whole:>10}.{part:02}")
}

/// Writes the load over time: a line for each slice with its begin in seconds, its load, and a bar with a mark for each
/// two per cent.
#[tactic(auto, unfolding(crate::specs::PageText::slice_lines))]
pub(crate) fn print_load<W: Write>(out: &mut W, slices: &[Slice]) -> io::Result<()>
    ensures { OnOk result (Appends (W.contents out.old) (W.contents out.new) (spec.slice_lines slices.now)) }
{
    writeln!(out, "       seconds     load")?;
    for slice in slices {
        print_slice(out, slice)?;
    }
    Ok(())
}

/// Writes the line of a slice.
fn print_slice<W: Write>(out: &mut W, slice: &Slice) -> io::Result<()>
    ensures { OnOk result (Appends (W.contents out.old) (W.contents out.new) (spec.slice_line slice.now)) }
{
    print_slice_load(out, slice)?;
    out.write_all(bar_of(slice.load()))?;
    out.write_all(b"\n")
}

/// Writes the begin of a slice in seconds, and its load.
fn print_slice_load<W: Write>(out: &mut W, slice: &Slice) -> io::Result<()>
    ensures { OnOk result (Appends (W.contents out.old) (W.contents out.new) (spec.slice_head slice.now)) }
{
    let (seconds, ticks) = (slice.begin / SECOND, slice.begin % SECOND);
    let (whole, part) = hundredths(slice.load());
    write!(out, " {seconds:>5}.{ticks:07} {whole:>3}.{part:02} %  ")
}

/// The bar of a load in hundredths of a per cent, at most that of a full one.
fn bar_of(load: u64) -> &'static [u8]
    ensures { result.now ≡ spec.bar load }
{
    let marks = (load / MARK).min(BAR.len() as u64) as usize;
    &BAR[..marks]
}
