//! The setup records in front of a recording.

use ch11_header::kinds::SETUP_RECORD;
use ch11_header::{Header, read_header};

/// How many bytes stand in front of the text of a setup record.
const WORD: usize = 4;

/// The text of the setup record that begins these bytes, and the bytes behind it; None where these begin with no whole
/// setup record.
pub(crate) fn first_record(bytes: &[u8]) -> Option<(&[u8], &[u8])> {
    let header = match read_header(bytes) {
        Ok(header) => header,
        Err(_) => return None,
    };
    if header.kind != SETUP_RECORD {
        return None;
    }
    let size = header.packet_length as usize;
    if bytes.len() < size {
        return None;
    }
    let (packet, behind) = bytes.split_at(size);
    Some((text_in(&header, packet), behind))
}

/// The text of the setup record that has this header and these bytes.
fn text_in<'a>(header: &Header, packet: &'a [u8]) -> &'a [u8] {
    let body = packet.get(header.body_start()..).unwrap_or(&[]);
    let size = body.len().min(header.data_length as usize);
    let (body, _) = body.split_at(size);
    body.get(WORD..).unwrap_or(&[])
}
