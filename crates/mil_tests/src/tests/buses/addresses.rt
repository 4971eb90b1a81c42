//! Which terminals a bus has, and 31 of them at once.
use super::Asked::{BetweenAll, Mode, ToAll};
use super::Beside::{All, Block};
use super::Step::{Act, AllReceivedBut, AllTell, Gives, NoTerminal};
use super::{Script, Setting, are_played};
use crate::tests::equal::{prints, same_in};
use mil_bus::{Bus, BusError};
use mil_word::Line::{A, B};
use std::alloc::Global;
use std::process::Abort;

/// All addresses that a terminal can have.
const ALL: &[u8] = &[
    0, 1, 2, 3, 4, 5, 6, 7, 8, 9, 10, 11, 12, 13, 14, 15, 16, 17, 18, 19, 20, 21, 22, 23, 24, 25,
    26, 27, 28, 29, 30,
];

#[test]
fn no_bus_has_an_address_twice_or_over_30(rt: HostRuntime) {
    is_refused(&rt, rt.alloc(), "5 and 5", &[5, 5]);
    is_refused(&rt, rt.alloc(), "5 and 31", &[5, 31]);
    prints(&rt, rt.alloc(), &BusError::Addresses, "B1");
    prints(&rt, rt.alloc(), &BusError::Memory, "B2");
}

/// There is no bus of these addresses.
fn is_refused(rt: &impl Abort, alloc: Global, row: &str, addresses: &[u8]) {
    let refused = Bus::make(alloc, 0, addresses).err();
    same_in(rt, row, &refused, &Some(BusError::Addresses));
}

/// With terminal 5 alone.
const ALONE: &[Script] = &[(
    "an action of no terminal is refused",
    &[NoTerminal(6), Act(5, "busy on")],
)];

/// Each with all 31 terminals.
const SCRIPTS: &[Script] = &[
    ("each terminal answers for itself", &[AllTell(0x0000)]),
    (
        "each terminal hears a broadcast, and says so in its status",
        &[
            Gives(
                B,
                ToAll(1, &[0x00aa, 0x0055]),
                All(0, 0x2000, 0x0000),
                &[0xf822, 0x00aa, 0x0055],
            ),
            AllReceivedBut(None, 1, &[0x00aa, 0x0055]),
            AllTell(0x0010),
        ],
    ),
    (
        "a terminal sends to 30 others",
        &[
            Act(7, "transmit 1 AAAA 5555"),
            Gives(
                A,
                BetweenAll(2),
                All(0, 0x0800, 0x0050),
                &[0xf882, 0x3c22, 0x3800, 0xaaaa, 0x5555],
            ),
            AllReceivedBut(Some(7), 4, &[0xaaaa, 0x5555]),
        ],
    ),
];

#[test]
fn terminals_of_buses(rt: HostRuntime) {
    are_played(&rt, rt.alloc(), &[5], ALONE);
    are_played(&rt, rt.alloc(), ALL, SCRIPTS);
}

impl Setting {
    /// At each terminal but one a receive command to all left these words, and none there.
    pub(super) fn all_received_but(
        &self,
        rt: &impl Abort,
        row: &str,
        none: Option<u8>,
        subaddress: u8,
        words: &[u16],
    ) {
        for address in ALL {
            let wanted = if none == Some(*address) { &[] } else { words };
            self.has_received_from_all(rt, row, *address, subaddress, wanted);
        }
    }

    /// Each terminal, asked for its status word alone, has these bits in it.
    pub(super) fn all_tell(&mut self, rt: &impl Abort, row: &str, bits: u16) {
        for address in ALL {
            let own = u16::from(*address) << 11;
            let asked = Mode(u32::from(*address), 2);
            let words = [own | 0x07e2, own | bits];
            self.gives(rt, row, A, asked, Block(0x0000, 0x0050), &[&words]);
        }
    }
}
