//! The routines of a code: their numbers, and where they begin. A routine ends at each Return; what stands behind the
//! last is the main part.
ghost use Rattle.frame_code.specs.Loadable.{CallsEarlier, HasRoutines};
ghost use Rattle.frame_code.specs.Routines.{passed, owner_at, routines, begin_of};
ghost use Rattle.std.specs.Prelude.{◌≡◌, ◌≤◌, ◌<◌, ◌^◌, ◌↔◌, ℕ, length, get_or, Some, IsTrue};

use frame_code::Op;

// Whether a Call in the routine of this number is of one that ended before.
fn calls_well(op: Op, routine: u16) -> bool
    ensures { IsTrue result ↔ CallsEarlier routine op }
{
    match op {
        Op::Call(called) => u16::from(called) < routine,
        _ => true,
    }
}

// The routine of the next place.
fn next_routine(op: Op, routine: u16) -> u16
    requires { routine < 2 ^ 15 }
    ensures { result ≡ passed (Some op) routine }
{
    match op {
        Op::Return => routine + 1,
        _ => routine,
    }
}

/// Whether there are at most 32 routines, and each Call is of one that ended before the Call's own began.
pub fn are_right(operations: &[Op]) -> bool
    requires { length operations.now ≤ 4096 }
    ensures { IsTrue result ↔ HasRoutines operations.now }
{
    let mut routine = 0;
    for op in operations {
        if !calls_well(*op, routine) {
            return false;
        }
        routine = next_routine(*op, routine);
    }
    routine <= 32
}

/// For each place the number of its routine.
pub fn number(operations: &[Op], numbers: &mut [u8; 4096])
    requires size { length operations.now ≤ 4096 }
    requires few { routines operations.now ≤ 32 }
    ensures { (p : ℕ) → p < length operations.now → get_or numbers.new p 0 ≡ owner_at operations.now p }
{
    let mut routine = 0;
    for i in 0..operations.len() {
        numbers[i] = routine as u8;
        routine = next_routine(operations[i], routine);
    }
}

/// For each routine the place where it begins, and the number of the main part.
pub fn find(operations: &[Op], starts: &mut [u16; 33]) -> u8
    requires size { length operations.now ≤ 4096 }
    requires few { routines operations.now ≤ 32 }
    ensures starts { (r : ℕ) → r ≤ routines operations.now → get_or starts.new r 0 ≡ begin_of operations.now r }
    ensures number { result ≡ routines operations.now }
{
    starts[0] = 0;
    let mut routine: u8 = 0;
    for i in 0..operations.len() {
        if let Op::Return = operations[i] {
            routine += 1;
            starts[routine as usize] = i as u16 + 1;
        }
    }
    routine
}
