//! The rules of the loader that need no sums.
ghost use Rattle.frame_code.specs.Loadable.{Each};
ghost use Rattle.frame_code.specs.Loadable.{open_at, EndsInHalt, LeavesTo, JumpsTo, TurnsTo, GoesWell, HasMessage};
ghost use Rattle.frame_code.specs.Routines.{owner_at};
ghost use Rattle.frame_code.specs.declared.Op.{Op};
ghost use Rattle.frame_load.specs.Marks.{AreBrackets};
ghost use Rattle.std.specs.Prelude.{◌≡◌, ◌≤◌, ◌<◌, ◌↔◌, ℕ, length, get_or, slice_get, Some, IsTrue};

use frame_code::Op;

/// Whether there is an operation, and the last is Halt.
pub fn ends_in_halt(operations: &[Op]) -> bool
    ensures { IsTrue result ↔ EndsInHalt operations.now }
{
    matches!(operations, [.., Op::Halt])
}

/// Writes for each place of at most 4096 its innermost bracket, by the place of what opens it plus one; 0 outside all.
pub fn mark_brackets(operations: &[Op], brackets: &mut [u16; 4096])
    requires { length operations.now ≤ 4096 }
    ensures { AreBrackets operations.now brackets.new }
{
    let mut current: u16 = 0;
    for i in 0..operations.len() {
        brackets[i] = current;
        current = match operations[i] {
            Op::Loop(_) | Op::Begin => i as u16 + 1,
            Op::Again(_) | Op::Pace(_) => {
                if current == 0 {
                    0
                } else {
                    brackets[current as usize - 1]
                }
            }
            _ => current,
        };
    }
}

// Whether the Again that closes the place's innermost bracket stands just before the target.
fn leaves_well(operations: &[Op], brackets: &[u16; 4096], place: usize, target: usize) -> bool
    requires size { length operations.now ≤ 4096 }
    requires place { place < length operations.now }
    requires marked { AreBrackets operations.now brackets.now }
    ensures { IsTrue result ↔ LeavesTo operations.now (open_at operations.now place) target }
{
    if target == 0 {
        return false;
    }
    if operations.len() < target {
        return false;
    }
    let before = target - 1;
    let Op::Again(_) = operations[before] else {
        return false;
    };
    brackets[before] == brackets[place]
}

// Whether a jump from this place may go to the target.
fn jumps_well(
    operations: &[Op],
    brackets: &[u16; 4096],
    routines: &[u8; 4096],
    place: usize,
    target: usize,
) -> bool
    requires size { length operations.now ≤ 4096 }
    requires place { place < length operations.now }
    requires marked { AreBrackets operations.now brackets.now }
    requires numbered { (p : ℕ) → p < length operations.now → get_or routines.now p 0 ≡ owner_at operations.now p }
    ensures { IsTrue result ↔ JumpsTo operations.now place target }
{
    if target <= place {
        return false;
    }
    if operations.len() <= target {
        return false;
    }
    brackets[target] == brackets[place] && routines[target] == routines[place]
}

// Whether an Again at this place may go to the target.
fn turns_well(operations: &[Op], brackets: &[u16; 4096], place: usize, target: u16) -> bool
    requires size { length operations.now ≤ 4096 }
    requires place { place < length operations.now }
    requires marked { AreBrackets operations.now brackets.now }
    ensures { IsTrue result ↔ TurnsTo (open_at operations.now place) target }
{
    target != 0 && brackets[place] == target
}

// Whether the operation at this place goes where it may.
fn goes_well(operations: &[Op], brackets: &[u16; 4096], routines: &[u8; 4096], place: usize) -> bool
    requires size { length operations.now ≤ 4096 }
    requires place { place < length operations.now }
    requires marked { AreBrackets operations.now brackets.now }
    requires numbered { (p : ℕ) → p < length operations.now → get_or routines.now p 0 ≡ owner_at operations.now p }
    ensures { (o : Op) → slice_get operations.now place ≡ Some o → IsTrue result ↔ GoesWell operations.now place o }
{
    match operations[place] {
        Op::Again(i) => turns_well(operations, brackets, place, i),
        Op::Leave(i) => leaves_well(operations, brackets, place, i as usize),
        Op::Jump(i) => jumps_well(operations, brackets, routines, place, i as usize),
        Op::JumpFalse(i) => jumps_well(operations, brackets, routines, place, i as usize),
        _ => true,
    }
}

/// Whether all operations go where they may, told by the innermost bracket and by the routine of each place.
pub fn all_go_well(operations: &[Op], brackets: &[u16; 4096], routines: &[u8; 4096]) -> bool
    requires size { length operations.now ≤ 4096 }
    requires marked { AreBrackets operations.now brackets.now }
    requires numbered { (p : ℕ) → p < length operations.now → get_or routines.now p 0 ≡ owner_at operations.now p }
    ensures { IsTrue result ↔ Each operations.now (GoesWell operations.now) }
{
    for i in 0..operations.len() {
        if !goes_well(operations, brackets, routines, i) {
            return false;
        }
    }
    true
}

// Whether the message that an operation sends is there.
fn has_message(op: Op, count: usize) -> bool
    ensures { IsTrue result ↔ HasMessage count op }
{
    match op {
        Op::Send(m) | Op::Alt(m) => (m as usize) < count,
        _ => true,
    }
}

/// Whether each message that is sent is one of so many.
pub fn all_have_messages(operations: &[Op], count: usize) -> bool
    ensures { IsTrue result ↔ Each operations.now (λ p. HasMessage count) }
{
    for op in operations {
        if !has_message(*op, count) {
            return false;
        }
    }
    true
}
