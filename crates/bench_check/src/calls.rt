//! Which terminals the messages of a job call.
ghost use Rattle.bench_check.specs.Mistakes as spec;
ghost use Rattle.std.specs.Prelude.{◌≡◌};

use mil_message::Message;
use mil_word::Command;
use mil_word::fields::FIELD_VALUES;

/// Who was called: for each address how many commands call it, and the number of the first message that does.
#[derive(Clone, Copy, Debug)]
pub struct Calls {
    counts: [u32; FIELD_VALUES],
    firsts: [u32; FIELD_VALUES],
}

impl Calls {
    /// Nobody was called yet.
    pub(crate) fn none() -> Calls {
        Calls {
            counts: [0; FIELD_VALUES],
            firsts: [0; FIELD_VALUES],
        }
    }

    /// Takes in the commands of the message of a number.
    pub(crate) fn note(&mut self, number: u32, message: &Message) {
        let commands = message.commands();
        self.call(number, commands.first);
        if let Some(second) = commands.second {
            self.call(number, second);
        }
    }

    fn call(&mut self, number: u32, command: Command) {
        let address = command.address() as usize;
        if self.counts[address] == 0 {
            self.firsts[address] = number;
        }
        self.counts[address] = self.counts[address].saturating_add(1);
    }

    /// How many commands call an address, 0 to 31; 31 is all terminals.
    pub fn count(&self, address: u8) -> u32
        ensures { result ≡ spec.calls_of self.now address }
    {
        match self.counts.get(address as usize) {
            Some(count) => *count,
            None => 0,
        }
    }

    /// The number of the first message that calls an address; 0 where none does.
    pub fn first(&self, address: u8) -> u32
        ensures { result ≡ spec.first_call_of self.now address }
    {
        match self.firsts.get(address as usize) {
            Some(first) => *first,
            None => 0,
        }
    }
}
