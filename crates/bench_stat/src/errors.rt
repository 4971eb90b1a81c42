//! The errors of a channel, by their kind.
ghost use Rattle.bench_stat.specs.Figures.{errors_of};
ghost use Rattle.bench_stat.specs.Steps.{with_errors};
ghost use Rattle.std.specs.Prelude.{◌≡◌, []};

use crate::counts::counted;
use ch11_layout::View;

/// How many messages had which error, by the block status word (IRIG 106-17 Chapter 11). A message counts under each
/// kind that it has. Counts go as far as 64 bits count.
#[derive(Clone, Copy, Debug, Default, PartialEq, Eq)]
pub struct Errors {
    /// Messages with an error of whatever kind: bit 12.
    pub messages: u64,
    /// No response, or a late one: bit 9.
    pub response: u64,
    /// Another number of words than due: bit 5.
    pub word_count: u64,
    /// A word with the wrong sync for its place: bit 4.
    pub sync: u64,
    /// A word that is not sound: bit 3.
    pub unsound: u64,
    /// An error of none of these kinds, such as a status word of another terminal.
    pub other: u64,
}

impl Errors {
    /// No errors.
    pub fn none() -> Errors
        ensures { result ≡ errors_of [] }
    {
        Errors::default()
    }

    /// One more message.
    pub(crate) fn note(&mut self, view: &View<'_>)
        ensures { self.new ≡ with_errors view.now self.old }
    {
        let failed = view.has_error();
        let silent = view.has_response_timeout();
        let miscounted = view.has_word_count_error();
        let of_other_sync = view.has_sync_type_error();
        let unsound = view.has_invalid_word_error();
        let named = silent || miscounted || of_other_sync || unsound;
        self.messages = counted(self.messages, failed);
        self.response = counted(self.response, silent);
        self.word_count = counted(self.word_count, miscounted);
        self.sync = counted(self.sync, of_other_sync);
        self.unsound = counted(self.unsound, unsound);
        self.other = counted(self.other, failed && !named);
    }
}
