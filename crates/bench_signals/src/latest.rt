//! The latest value of each signal in each channel.
ghost use Rattle.bench_signals.specs.Latest.{IsNoted, kept_at};
ghost use Rattle.bench_signals.specs.Values.{is_same};
ghost use Rattle.std.specs.HashMap.{get};
ghost use Rattle.std.specs.Prelude.{◌≡◌, ◌+◌, ◌*◌, ℕ, nat_eq, not, option_map, None, OnOk, IfOk};

use std::alloc::{AllocError, Global};
use std::collections::HashMap;

/// The text of the latest value of each signal in each channel.
#[derive(Drop)]
pub(crate) struct Latest {
    alloc: Global,
    texts: HashMap<u128, Vec<u8>>,
}

/// Where the latest value of a signal in a channel is kept.
pub(crate) fn key_of(signal: usize, channel: u16) -> u128
    ensures { result ≡ signal * 65536 + channel }
{
    signal as u128 * 65536 + u128::from(channel)
}

impl Latest {
    /// No value yet.
    pub(crate) fn new(alloc: Global) -> Latest
        ensures { (signal channel : ℕ) → kept_at result signal channel ≡ None }
    {
        Latest {
            alloc,
            texts: HashMap::new(alloc),
        }
    }

    /// Notes a value; answers whether it is another than the one before.
    pub(crate) fn note(
        &mut self,
        signal: usize,
        channel: u16,
        text: &[u8],
    ) -> Result<bool, AllocError>
        ensures new { IfOk result (λ new. new ≡ not (is_same text.now (kept_at self.old signal channel))) }
        ensures kept { OnOk result (IsNoted signal channel text.now self.old self.new) }
    {
        let key = key_of(signal, channel);
        let same = self.is_latest(key, text);
        if same {
            return Ok(false);
        }
        let copy = Vec::from_slice(self.alloc, text)?;
        self.texts.insert(key, copy)?;
        Ok(true)
    }

    /// Whether this is the latest value that is kept there.
    fn is_latest(&self, key: u128, text: &[u8]) -> bool
        ensures { result ≡ is_same text.now (option_map (λ v. v.items) (get nat_eq self.now.texts key)) }
    {
        match self.texts.get(&key) {
            Some(before) => before.as_slice() == text,
            None => false,
        }
    }
}
