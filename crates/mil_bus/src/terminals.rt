//! The terminals of a bus, in order of address.
ghost use Rattle.mil_bus.specs.Actions.{place_of, station_of, acting};
ghost use Rattle.mil_bus.specs.Addresses.{stations_of};
ghost use Rattle.mil_bus.specs.DataRuns.{hearing_all, run_words};
ghost use Rattle.mil_bus.specs.Exchange.{hearing, all_hearing, quieted, first_reply};
ghost use Rattle.mil_bus.specs.Offers.{given};
ghost use Rattle.mil_bus.specs.Wholes.{value_waves};
ghost use Rattle.mil_word.specs.Wave.{word_of};
ghost use Rattle.mil_word.specs.Words.{command_wave, data_wave};
ghost use Rattle.std.specs.Option.{is_some, option_copied};
ghost use Rattle.std.specs.Prelude.{◌≡◌, IfOk, map, None};

use crate::Sent;
use crate::addresses::fresh;
use crate::bits::with_bit;
use crate::copies::copied;
use crate::data_runs::HeardData;
use crate::hearing::{HeardWord, concerned};
use crate::offers::Offered;
use crate::quieting::Quiet;
use crate::talk_runs::Run;
use crate::telling::tell_all;
use mil_host::Action;
use mil_line::Gap;
use mil_message::Values;
use mil_terminal::Terminal;
use mil_word::fields::FIELD_VALUES;
use mil_word::{Line, Word, decode};
use std::alloc::{AllocError, Global};
use std::marker::Model;

/// Terminals in order of address, and what tells quickly which of them an event concerns: one that it does not concern
/// costs nothing. Contracts see their addresses and histories.
#[derive(Drop)]
pub struct Terminals {
    pub(crate) list: Vec<Terminal>,
    /// Under each address the place of its terminal in the list.
    pub(crate) places: [u8; FIELD_VALUES],
    /// A bit for each place, clear only where no window is open.
    pub(crate) opened: u32,
}

impl Model for Terminals {
    ghost use Rattle.mil_bus.specs.Index.{AreClosed, IsAddressIndex};
    ghost use Rattle.mil_terminal.specs.Station.{Station};
    ghost use Rattle.std.specs.Prelude.{List};

    ghost Value = { List Station };

    ghost view = { λ t. t.list.items };

    ghost invariant = { λ t. IsAddressIndex t.places t.list.items × AreClosed t.opened t.list.items };
}

impl Terminals {
    /// New terminals of these addresses.
    pub fn make(alloc: Global, addresses: &[u8]) -> Result<Terminals, AllocError>
        ensures { IfOk result (λ t. t ≡ stations_of addresses.now) }
    {
        let mut places = [0; FIELD_VALUES];
        let list = fresh(alloc, addresses, &mut places)?;
        Ok(Terminals {
            list,
            places,
            opened: u32::MAX,
        })
    }

    /// A word comes to all terminals. It is decoded once.
    pub fn hear(&mut self, line: Line, sent: &Sent)
        ensures { self.new ≡ map (hearing line sent.now) self.old }
    {
        self.hear_decoded(line, sent, decode(sent.wave));
    }

    /// The same, where it was decoded before.
    #[inline(always)]
    fn hear_decoded(&mut self, line: Line, sent: &Sent, decoded: Option<Word>)
        requires { decoded ≡ word_of sent.now.wave }
        ensures { self.new ≡ map (hearing line sent.now) self.old }
    {
        let mask = concerned(&self.places, self.opened, decoded);
        let heard = HeardWord {
            line,
            sent,
            decoded,
        };
        self.opened = tell_all(&mut self.list, mask, &heard, &mut ());
    }

    /// Words come to all terminals, one after the other.
    pub fn hear_each(&mut self, line: Line, words: &[Sent])
        ensures { self.new ≡ all_hearing line words.now self.old }
    {
        for word in words {
            self.hear(line, word);
        }
    }

    /// The commands of a run, or its status word, come to all terminals, one after the other.
    fn hear_commands(&mut self, line: Line, run: &Run, values: &[u16])
        ensures { self.new ≡ all_hearing line (run_words run.now (map command_wave values.now)) self.old }
    {
        let mut gap = run.gap;
        for value in values {
            let word = run.word(gap, true, *value);
            self.hear_decoded(line, &word, decode(word.wave));
            gap = Gap::contiguous();
        }
    }

    /// The data words of a run come to all terminals. They concern those alone that have an open window.
    fn hear_data(&mut self, line: Line, run: &Run, values: &[u16])
        ensures { self.new ≡ map (hearing_all line (run_words run.now (map data_wave values.now))) self.old }
    {
        let words = HeardData { line, run, values };
        self.opened = tell_all(&mut self.list, self.opened, &words, &mut ());
    }

    /// The words of a run that is sent as it should come to all terminals: its commands or its status word one after
    /// the other, and its data words as a whole.
    pub fn hear_whole(&mut self, line: Line, run: &Run, values: &Values)
        ensures { self.new ≡ all_hearing line
            (run_words run.now (value_waves values.now.commands values.now.words.items)) self.old }
    {
        let (commands, data) = values.parts();
        self.hear_commands(line, run, commands);
        if !data.is_empty() {
            self.hear_data(line, &run.from(commands.len()), data);
        }
    }

    /// A quiet comes to all terminals, and the first to answer, in order of address, gives the next words; whether one
    /// does.
    pub fn quiet(&mut self, line: Line, offer: &mut Offered) -> bool
        ensures after { self.new ≡ map (quieted line) self.old }
        ensures first { given result offer.new ≡ first_reply line self.old }
    {
        offer.answered = false;
        self.opened = tell_all(&mut self.list, self.opened, &Quiet { line }, offer);
        offer.answered
    }

    /// Where the terminal with this address stands.
    fn place(&self, address: u8) -> Option<usize>
        ensures { result ≡ place_of address self.now }
    {
        for i in 0..self.list.len() {
            let terminal = &self.list[i];
            if terminal.address() == address {
                return Some(i);
            }
        }
        None
    }

    /// An action of a terminal's host; false, and nothing done, where there is no such terminal.
    pub fn act(&mut self, address: u8, action: &Action) -> bool
        ensures after { self.new ≡ acting address action.now self.old }
        ensures found { result ≡ is_some (place_of address self.old) }
    {
        match self.place(address) {
            None => false,
            Some(place) => {
                let terminal = &mut self.list[place];
                terminal.act(action);
                self.opened = with_bit(self.opened, place, true);
                true
            }
        }
    }

    /// The terminal with this address.
    pub fn terminal(&self, address: u8) -> Option<&Terminal>
        ensures { option_copied result ≡ station_of address self.now }
    {
        match self.place(address) {
            None => None,
            Some(place) => Some(&self.list[place]),
        }
    }

    /// The same terminals, with room of their own.
    pub fn copy(&self) -> Result<Terminals, AllocError>
        ensures { IfOk result (λ t. t ≡ self.now) }
    {
        let list = copied(*self.list.allocator(), self.list.as_slice())?;
        Ok(Terminals {
            list,
            places: self.places,
            opened: self.opened,
        })
    }
}
