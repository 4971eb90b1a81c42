//! The weights of operations, and their sums. What is beyond the most that any of the sums may come to is counted as
//! one more than that.
ghost use Rattle.frame_code.specs.Loadable.{HasRoutines};
ghost use Rattle.frame_code.specs.Ranges.{AreInRange, in_range};
ghost use Rattle.frame_code.specs.declared.Op.TheVariants as op_of;
ghost use Rattle.frame_load.specs.Budget as sums;
ghost use Rattle.frame_load.specs.Budget.{total};
ghost use Rattle.frame_load.specs.Marks.{AreBrackets, AreWeights, counted};
ghost use Rattle.std.specs.Prelude.{◌≡◌, ◌≤◌, ◌<◌, ◌^◌, ◌+◌, ◌*◌, ℕ, min, length, IsTrue};

use frame_code::Op;

// One more than the most ticks that the periods of a run may come to; its steps and its messages may be far fewer.
const CAP: u64 = (1 << 46) + 1;

/// What is counted.
#[derive(Clone, Copy)]
pub enum Counted {
    /// Each operation is a step.
    Steps,
    /// Each Send and each Alt is a message.
    Messages,
    /// Each Pace has its period, in ticks.
    Periods,
}

/// Writes for each place of at most 4096 its weight, the product of the counts of the loops that it is in; 2^46 + 1
/// where that is more.
pub fn mark_weights(operations: &[Op], brackets: &[u16; 4096], weights: &mut [u64; 4096])
    requires size { length operations.now ≤ 4096 }
    requires range { AreInRange operations.now }
    requires marked { AreBrackets operations.now brackets.now }
    ensures { AreWeights operations.now weights.new }
{
    let mut current: u64 = 1;
    for i in 0..operations.len() {
        weights[i] = current;
        current = match operations[i] {
            Op::Loop(n) => (n as u64 * current).min(CAP),
            Op::Again(_) | Op::Pace(_) => {
                if brackets[i] == 0 {
                    current
                } else {
                    weights[brackets[i] as usize - 1]
                }
            }
            _ => current,
        };
    }
}

// What an operation costs by itself.
fn cost(op: Op, what: Counted) -> u64
    requires { IsTrue (in_range op) }
    ensures value { result ≡ counted what op }
    ensures small { result < 2 ^ 26 }
{
    match (what, op) {
        (Counted::Steps, _) => 1,
        (Counted::Messages, Op::Send(_) | Op::Alt(_)) => 1,
        (Counted::Periods, Op::Pace(h)) => 1000 * u64::from(h),
        _ => 0,
    }
}

// What the routine of a Call costs, or the cap; 0 for every other operation.
fn cost_called(op: Op, ended: &[u64; 32]) -> u64
    requires { (r : ℕ) → op ≡ op_of.Call r → r < 32 }
    ensures { result ≡ sums.cost_called op ended.now }
{
    match op {
        Op::Call(routine) => ended[routine as usize],
        _ => 0,
    }
}

// A sum and a product, or the cap.
fn added(now: u64, weight: u64, one: u64) -> u64
    requires now { now ≤ 2 ^ 46 + 1 }
    requires weight { weight ≤ 2 ^ 46 + 1 }
    requires one { one < 2 ^ 47 }
    ensures { result ≡ min (now + weight * one) (2 ^ 46 + 1) }
{
    let product = u128::from(weight) * u128::from(one);
    (u128::from(now) + product).min(u128::from(CAP)) as u64
}

/// What the main part costs, or 2^46 + 1 where that is more: each operation as often as its weight says, a Call with
/// what its routine costs.
pub fn count(operations: &[Op], weights: &[u64; 4096], what: Counted) -> u64
    requires size { length operations.now ≤ 4096 }
    requires range { AreInRange operations.now }
    requires routines { HasRoutines operations.now }
    requires marked { AreWeights operations.now weights.now }
    ensures { result ≡ min (2 ^ 46 + 1) (total (counted what) operations.now) }
{
    let mut now: u64 = 0;
    let mut ended = [0; 32];
    let mut routine: u8 = 0;
    for i in 0..operations.len() {
        let op = operations[i];
        let one = cost(op, what) + cost_called(op, &ended);
        now = added(now, weights[i], one);
        if let Op::Return = op {
            ended[routine as usize] = now;
            routine += 1;
            now = 0;
        }
    }
    now
}
