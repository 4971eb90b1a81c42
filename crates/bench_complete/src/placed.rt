//! Where the packets of a recording stand.
use ch11_header::Header;

/// Where a packet of a recording stands, and what its header says.
#[derive(Clone, Copy, Debug)]
pub(crate) struct Placed {
    /// Where it begins, in bytes from the start of the file.
    pub(crate) offset: usize,
    /// Its header.
    pub(crate) header: Header,
}
