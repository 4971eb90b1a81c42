//! The decimals of dictionaries of signals, with the zeros behind their last digit, which no command shows: worked out
//! by hand.
use crate::looks::equal::same_in;
use signal_dictionary::{Decimal, decimal_of};

/// Decimals as they are written: whether they are below zero, their digits, and how many stand behind the point.
const DECIMALS: [(&str, bool, u64, u8); 2] = [("-1.50", true, 150, 2), ("007.250", false, 7250, 3)];

#[test]
fn decimals_are_read(rt: HostRuntime) {
    for (text, negative, digits, places) in DECIMALS {
        let wanted = Decimal {
            negative,
            digits,
            places,
        };
        same_in(&rt, text, &decimal_of(text.as_bytes()), &Ok(wanted));
    }
}
