//! The replies that are due to a message.
ghost use Rattle.bench_judge.specs.Clean as spec;
ghost use Rattle.std.specs.Prelude.{◌≡◌, []};

use ch11_layout::is_set;
use mil_message::Due;
use mil_word::timing::{LATEST_RESPONSE, LEAST_RESPONSE};
use mil_word::{Command, Status};

/// Whether a status word has this address, and no reserved bit.
fn status_fits(address: u8, status: u16) -> bool
    ensures { result ≡ spec.status_fits address status }
{
    Command::of(status).address() == address
        && !is_set(status, 9)
        && !is_set(status, 7)
        && !is_set(status, 6)
        && !is_set(status, 5)
}

fn is_in_time(gap: u8) -> bool
    ensures { result ≡ spec.is_in_time gap }
{
    LEAST_RESPONSE <= gap && gap <= LATEST_RESPONSE
}

/// Whether no reply came.
fn are_none(gaps: &[u8]) -> bool
    ensures { result ≡ spec.replies_fit [] [] gaps.now }
{
    gaps.iter().all(|gap| *gap == 0)
}

/// Whether each reply that is due came in time, with its status word, and no other came.
pub(crate) fn replies_fit(due: &[Due], statuses: &[u16], gaps: &[u8]) -> bool
    ensures { result ≡ spec.replies_fit due.now statuses.now gaps.now }
{
    let (mut awaited, mut found, mut times) = (due, statuses, gaps);
    'replies: while let Some((first, others)) = awaited.split_first() {
        let Some((status, more)) = found.split_first() else {
            return false;
        };
        let Some((gap, later)) = times.split_first() else {
            return false;
        };
        if !(status_fits(first.address, *status) && is_in_time(*gap)) {
            return false;
        }
        awaited = others;
        found = more;
        times = later;
    }
    found.is_empty() && are_none(times)
}

/// How many data words are due from a terminal: the first reply alone may have some.
pub(crate) fn words_due(due: &[Due]) -> u8
    ensures { result ≡ spec.words_due due.now }
{
    match due.split_first() {
        Some((first, _)) => first.words,
        None => 0,
    }
}

/// Whether the first status word tells that no data words follow it.
pub(crate) fn sends_no_data(statuses: &[u16]) -> bool
    ensures { result ≡ spec.sends_no_data statuses.now }
{
    match statuses.split_first() {
        Some((status, _)) => {
            let status = Status::of(*status);
            status.has_message_error() || status.has_busy()
        }
        None => false,
    }
}
