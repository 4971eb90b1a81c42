//! Whether a terminal has words to transmit.
ghost use Rattle.bc_machine.specs.declared.placed.Placed.{Placed as PlacedAction};
ghost use Rattle.bench_check.specs.Filling as spec;
ghost use Rattle.mil_word.specs.Fields.{field_values};
ghost use Rattle.std.specs.Prelude.{◌≡◌, ◌+◌, ◌*◌, ◌<◌, ◌++◌, ◌∷◌, [], ℕ, List, nat_le, ◌||◌, IfSome};

use bc_machine::{Actions, HostAction, Placed};
use mil_host::Action;
use mil_word::fields::FIELD_VALUES;
use std::marker::Model;

/// How many pairs of an address and a subaddress there are.
const PAIRS: usize = FIELD_VALUES * FIELD_VALUES;

/// Placed actions, and for each terminal and subaddress from which message on they have put words up there, so that a
/// look at it takes the same time however many actions there are. Contracts see the actions alone.
#[derive(Drop)]
pub struct Filled {
    placed: Actions,
    /// The least number at which words are put up, where they are at all.
    firsts: [Option<u32>; PAIRS],
}

impl Model for Filled {
    ghost use Rattle.bc_machine.specs.declared.placed.Placed.{Placed};
    ghost use Rattle.std.specs.Prelude.{List};

    ghost Value = { List Placed };

    ghost use Rattle.bench_check.specs.Filling.{AreFirsts};

    ghost view = { λ f. f.placed };

    ghost invariant = { λ f. AreFirsts f.firsts f.placed };
}

impl Filled {
    /// These actions. It takes no memory.
    pub fn of(placed: Actions) -> Filled
        ensures { result ≡ placed }
    {
        let mut firsts = [None; PAIRS];
        for place in 0..placed.len() {
            note(&mut firsts, &placed.get(place));
        }
        Filled { placed, firsts }
    }

    /// The actions.
    pub fn actions(&self) -> &Actions
        ensures { result.now ≡ self.now }
    {
        &self.placed
    }

    /// Whether the host of a terminal put words up at a subaddress, by one of these actions, before or at the message
    /// of a number, counted from 1.
    pub fn is_filled(&self, number: u32, address: u8, sub: u8) -> bool
        requires address { address < field_values }
        requires sub { sub < field_values }
        ensures { result ≡ spec.is_filled number address sub self.now }
    {
        match self.firsts[pair(address, sub)] {
            Some(first) => first <= number,
            None => false,
        }
    }
}

/// The place of an address and a subaddress among all pairs of these.
fn pair(address: u8, sub: u8) -> usize
    requires address { address < field_values }
    requires sub { sub < field_values }
    ensures { result ≡ field_values * address + sub }
{
    FIELD_VALUES * usize::from(address) + usize::from(sub)
}

/// The lesser of a number and the one that was kept, if any.
fn earlier(first: Option<u32>, number: u32) -> u32
    ensures { (n : ℕ) → nat_le result n ≡ (spec.is_reached first n || nat_le number n) }
{
    match first {
        Some(first) => first.min(number),
        None => number,
    }
}

/// The subaddress at which an action puts words up, if it puts any up.
fn put_up_at(action: &Action) -> Option<u8>
    ensures place { result ≡ spec.put_up_at action.now }
    ensures range { IfSome result (λ sub. sub < field_values) }
{
    match action {
        Action::Transmit(words) => Some(words.sub()),
        Action::Ramp(ramp) => Some(ramp.sub()),
        _ => None,
    }
}

/// Notes where an action puts words up, and at which message. (What is done at an address above 31 is done at no
/// terminal.)
fn note(firsts: &mut [Option<u32>; PAIRS], one: &Placed)
    ensures { (before : List PlacedAction) → spec.AreFirsts firsts.old before
        → spec.AreFirsts firsts.new (before ++ one.now ∷ []) }
{
    let HostAction::Terminal { address, action } = &one.action else {
        return;
    };
    if let Some(sub) = put_up_at(action) {
        if usize::from(*address) < FIELD_VALUES {
            let place = pair(*address, sub);
            firsts[place] = Some(earlier(firsts[place], one.number));
        }
    }
}
