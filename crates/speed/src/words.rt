//! The words of a command line, the files that they name, and lines of figures.
use bench_dump::read_all;
use std::{fs, io};

/// The number that stands at a place; None where there is none.
pub(crate) fn number(words: &[&str], place: usize) -> Option<u64> {
    words.get(place)?.parse::<u64>().ok()
}

/// The bytes of the file that stands at a place; None where there is none, or it cannot be read.
pub(crate) fn file(rt: &HostRuntime, words: &[&str], place: usize) -> Option<Vec<u8>> {
    let mut file = fs::open(rt, words.get(place)?).ok()?;
    read_all(rt.alloc(), &mut file).ok()
}

/// Prints figures as one line.
pub(crate) fn print_figures(rt: &HostRuntime, figures: &[u64]) -> io::Result<()> {
    for (place, figure) in figures.iter().enumerate() {
        let gap = if place == 0 { "" } else { " " };
        print!(rt; "{gap}{figure}")?;
    }
    println!(rt; "")
}
