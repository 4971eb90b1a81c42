//! Ways in which a record may have come about.

use crate::wanted::Wanted;

/// Which word is the odd one.
#[derive(Clone, Copy, Debug, PartialEq, Eq)]
pub(crate) enum Mark {
    /// None of the controller's words: one of a reply, if any.
    Reply,
    /// The first word of the controller.
    First,
    /// The last one.
    Last,
}

/// How a record is explained.
#[derive(Clone, Copy, Debug)]
pub(crate) struct Style {
    pub(crate) mark: Mark,
    /// Whether the terminals that reply are made anew first.
    pub(crate) renews: bool,
    /// Whether words of replies are altered on the line.
    pub(crate) mends: bool,
    /// Whether a terminal that does not reply has not heard either.
    pub(crate) deafens: bool,
    /// Whether words that are added have data sync whatever the block status word tells.
    pub(crate) adds_data: bool,
}

const fn way(mark: Mark, renews: bool, mends: bool, deafens: bool) -> Style {
    Style {
        mark,
        renews,
        mends,
        deafens,
        adds_data: false,
    }
}

const fn adding_data(mark: Mark) -> Style {
    Style {
        mark,
        renews: false,
        mends: true,
        deafens: false,
        adds_data: true,
    }
}

/// A way to explain a record, the likeliest first; None where there is no such way.
pub(crate) fn style_of(wanted: &Wanted, which: u8) -> Option<Style> {
    match (wanted.has_odd_word(), wanted.came(1)) {
        (false, _) => match which {
            0 => Some(way(Mark::Reply, false, false, false)),
            1 => Some(way(Mark::Reply, false, false, true)),
            2 => Some(way(Mark::Reply, true, false, false)),
            3 => Some(way(Mark::Reply, false, true, false)),
            4 => Some(way(Mark::Reply, true, true, false)),
            _ => None,
        },
        (true, true) => match which {
            0 => Some(way(Mark::Reply, false, true, false)),
            1 => Some(way(Mark::Last, false, true, false)),
            2 => Some(way(Mark::First, false, true, false)),
            3 => Some(way(Mark::Reply, false, true, true)),
            4 => Some(way(Mark::Reply, true, true, false)),
            5 => Some(adding_data(Mark::Reply)),
            6 => Some(adding_data(Mark::Last)),
            _ => None,
        },
        (true, false) => match which {
            0 => Some(way(Mark::Last, false, true, false)),
            1 => Some(way(Mark::First, false, true, false)),
            2 => Some(way(Mark::Reply, false, true, false)),
            3 => Some(way(Mark::Last, false, true, true)),
            4 => Some(way(Mark::First, false, true, true)),
            5 => Some(adding_data(Mark::Last)),
            6 => Some(adding_data(Mark::First)),
            _ => None,
        },
    }
}

/// How many ways there are at most.
pub(crate) const STYLES: u8 = 7;
