//! Files and streams that fail, and printing to the standard output.

use bench_requests::{CommandFault, Listing};
use std::io;
use std::io::{BufWriter, Printer, Write};
use text_lines::WriteFault;

/// What a call on the file or stream with this name answered, `-` for standard input and output; or its fault.
pub fn on_stream<'a, T>(name: &'a str, answer: io::Result<T>) -> Result<T, CommandFault<'a>> {
    match answer {
        Ok(value) => Ok(value),
        Err(error) => Err(CommandFault::of_stream(name, &error)),
    }
}

/// What a command prints to the standard output, all at once.
pub trait Printable {
    /// Prints it. A fault is the writer's.
    fn print_to<W: Write>(&self, out: &mut W) -> io::Result<()>;
}

/// The standard output as a listing goes there that is made to its end also where its reader has gone, since the end
/// decides what the command comes to, or comes soon.
pub fn listing<R: Print>(rt: &R) -> Listing<Printer<'_, R>> {
    Listing::going_on(io::writer(rt))
}

/// Prints to the standard output through one buffer, all of which is handed on.
pub fn print_to_output<R: AllocGlobal + Print, P: Printable>(
    rt: &R,
    printable: &P,
) -> io::Result<()> {
    let mut out = BufWriter::new(rt.alloc(), listing(rt))?;
    printable.print_to(&mut out)?;
    out.flush()
}

/// What printing to the standard output comes to that ended so, once all is handed on.
pub fn printed<'a, W: Write>(
    answer: Result<(), WriteFault>,
    out: &mut W,
) -> Result<(), CommandFault<'a>> {
    match answer {
        Ok(()) => on_stream("-", out.flush()),
        Err(WriteFault::Memory) => Err(CommandFault::Memory),
        Err(WriteFault::Device) => Err(CommandFault::Device("-")),
    }
}

/// What printing came to, which is want of memory where memory for something on its way was refused.
pub fn unless_refused<'a, T: Drop>(
    is_refused: bool,
    answer: Result<T, CommandFault<'a>>,
) -> Result<T, CommandFault<'a>> {
    if is_refused {
        return Err(CommandFault::Memory);
    }
    answer
}

/// Hands on all that waits in a buffer.
pub fn flushed<W: Write>(out: &mut W) -> Result<(), WriteFault> {
    out.flush()?;
    Ok(())
}
