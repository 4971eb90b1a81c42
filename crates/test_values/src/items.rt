//! What the tests send through the trunk.
use mil_trunk::Tagged;

/// An item with its tag.
#[derive(Debug, Clone, Copy, PartialEq, Eq)]
pub struct Item {
    pub tag: u8,
    pub number: u32,
}

impl Tagged for Item {
    ghost tag_of = { λ item. item.tag };

    fn tag(&self) -> u8 {
        self.tag
    }
}

/// The largest bound that a tag of a trunk may have.
pub const BOUND: u64 = 1 << 55;
