//! What was compared as a JUnit XML file: a test case a channel.

use crate::differences::Compared;
use crate::lines::{differing, write_part};
use std::alloc::Global;
use std::io::Write;
use text_lines::WriteFault;

/// Writes the test case of a channel, which fails where it differs.
fn write_case<W: Write>(alloc: Global, compared: &Compared, out: &mut W) -> Result<(), WriteFault> {
    let (channel, first, second) = (compared.channel, compared.first, compared.second);
    write!(
        out,
        "  <testcase classname=\"channel {channel}\" name=\"messages {first} {second}\""
    )?;
    let Some(difference) = &compared.difference else {
        out.write_all(b"/>\n")?;
        return Ok(());
    };
    write!(
        out,
        ">\n    <failure message=\"differs at {} ",
        difference.number
    )?;
    write_part(alloc, difference, out)?;
    out.write_all(b"\"/>\n  </testcase>\n")?;
    Ok(())
}

/// Writes a JUnit file of what was compared: a test case a channel, named by how many messages each recording has of
/// it, which fails where the channel differs, with the first message that does and in what. There is no character that
/// XML would take for markup.
pub fn write_junit<W: Write>(
    alloc: Global,
    compared: &[Compared],
    out: &mut W,
) -> Result<(), WriteFault> {
    let (tests, failures) = (compared.len(), differing(compared));
    write!(
        out,
        "<?xml version=\"1.0\" encoding=\"UTF-8\"?>\n<testsuite name=\"bench compare\" tests=\"{tests}\" \
         failures=\"{failures}\">\n"
    )?;
    'channels: for channel in compared {
        write_case(alloc, channel, out)?;
    }
    out.write_all(b"</testsuite>\n")?;
    Ok(())
}
