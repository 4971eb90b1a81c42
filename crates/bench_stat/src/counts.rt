//! Counts that stop at the most that 64 bits hold.
ghost use Rattle.ch11_reader.specs.Contents.{capped};
ghost use Rattle.bench_stat.specs.Figures.{one_if};
ghost use Rattle.std.specs.Prelude.{◌≡◌, ◌+◌};

/// The sum, at most 2^64 - 1.
pub(crate) fn more(count: u64, by: u64) -> u64
    ensures { result ≡ capped (count + by) }
{
    count.saturating_add(by)
}

/// One more where it holds, at most 2^64 - 1.
pub(crate) fn counted(count: u64, holds: bool) -> u64
    ensures { result ≡ capped (count + one_if holds) }
{
    if holds {
        count.saturating_add(1)
    } else {
        count
    }
}
