//! Whether brackets pair in each routine, and how many of a kind are open at once.
ghost use Rattle.frame_code.specs.Loadable.{open_at, loops_among, EndsInHalt, HasRoutines, IsPaired, Each, IsNested};
ghost use Rattle.frame_code.specs.declared.Op.{Op};
ghost use Rattle.frame_load.specs.Marks.{AreBrackets, kind_at, effect_of, peak_of, depth_after, most_of, HasRoomFor};
ghost use Rattle.frame_load.specs.declared.nesting.Effect.TheVariants as effect_as;
ghost use Rattle.std.specs.Prelude.{◌≡◌, ◌≤◌, ◌<◌, ◌↔◌, ℕ, length, get_or, slice_get, Some, IsTrue};

use frame_code::Op;

// A kind of brackets: a loop, which Loop opens and Again closes, or a frame, which Begin opens and Pace closes.
#[derive(Clone, Copy)]
enum Kind {
    Loops,
    Frames,
}

// What an operation does to how many brackets of a kind are open.
#[derive(Clone, Copy)]
enum Effect {
    Opens,
    Closes,
    Calls(u8),
    Ends,
    Keeps,
}

// The kind of the innermost bracket of a place.
fn innermost_kind(operations: &[Op], brackets: &[u16; 4096], place: usize) -> Option<Kind>
    requires size { length operations.now ≤ 4096 }
    requires place { place < length operations.now }
    requires marked { AreBrackets operations.now brackets.now }
    ensures { result ≡ kind_at operations.now (open_at operations.now place) }
{
    let bracket = brackets[place];
    if bracket == 0 {
        return None;
    }
    match operations[bracket as usize - 1] {
        Op::Loop(_) => Some(Kind::Loops),
        _ => Some(Kind::Frames),
    }
}

// Whether the operation at a place that stands in so many loops closes what it may, or stands where it may.
fn pairs(operations: &[Op], brackets: &[u16; 4096], place: usize, loops: u16) -> bool
    requires size { length operations.now ≤ 4096 }
    requires place { place < length operations.now }
    requires marked { AreBrackets operations.now brackets.now }
    requires loops { loops ≡ length (loops_among operations.now (open_at operations.now place)) }
    ensures { (o : Op) → slice_get operations.now place ≡ Some o →
        IsTrue result ↔ IsPaired operations.now (open_at operations.now place) o }
{
    match operations[place] {
        Op::Again(_) => matches!(
            innermost_kind(operations, brackets, place),
            Some(Kind::Loops)
        ),
        Op::Pace(_) => matches!(
            innermost_kind(operations, brackets, place),
            Some(Kind::Frames)
        ),
        Op::Leave(_) => 0 < loops,
        Op::Return => brackets[place] == 0,
        _ => true,
    }
}

// Whether each operation closes what it may, or stands where it may.
fn all_pair(operations: &[Op], brackets: &[u16; 4096]) -> bool
    requires size { length operations.now ≤ 4096 }
    requires marked { AreBrackets operations.now brackets.now }
    ensures { IsTrue result ↔ Each operations.now (λ p. IsPaired operations.now (open_at operations.now p)) }
{
    let mut loops: u16 = 0;
    for i in 0..operations.len() {
        if !pairs(operations, brackets, i, loops) {
            return false;
        }
        match operations[i] {
            Op::Loop(_) => loops += 1,
            Op::Again(_) => loops -= 1,
            _ => {}
        }
    }
    true
}

// What an operation does to how many brackets of this kind are open.
fn effect_on(op: Op, kind: Kind) -> Effect
    ensures { result ≡ effect_of op kind }
{
    match (op, kind) {
        (Op::Loop(_), Kind::Loops) | (Op::Begin, Kind::Frames) => Effect::Opens,
        (Op::Again(_), Kind::Loops) | (Op::Pace(_), Kind::Frames) => Effect::Closes,
        (Op::Call(routine), _) => Effect::Calls(routine),
        (Op::Return, _) => Effect::Ends,
        _ => Effect::Keeps,
    }
}

// How many brackets are open at once when an operation opens one, or what it calls does; 0 for every other operation.
fn peak(effect: Effect, depth: u8, ended: &[u8; 32]) -> u8
    requires depth { depth ≤ 17 }
    requires routine { (r : ℕ) → effect ≡ effect_as.Calls r → r < 32 }
    requires ended { (r : ℕ) → effect ≡ effect_as.Calls r → get_or ended.now r 0 ≤ 17 }
    ensures { result ≡ peak_of effect depth ended.now }
{
    match effect {
        Effect::Opens => depth + 1,
        Effect::Calls(routine) => depth + ended[routine as usize],
        _ => 0,
    }
}

// How many brackets are open behind an operation.
fn next_depth(effect: Effect, depth: u8) -> u8
    requires depth { depth ≤ 17 }
    requires closes { effect ≡ effect_as.Closes → 0 < depth }
    ensures { result ≡ depth_after effect depth }
{
    match effect {
        Effect::Opens => depth + 1,
        Effect::Closes => depth - 1,
        _ => depth,
    }
}

// The most brackets of a kind that may be open at once.
fn most(kind: Kind) -> u8
    ensures value { result ≡ most_of kind }
    ensures low { result ≤ 17 }
{
    match kind {
        Kind::Loops => 17,
        Kind::Frames => 16,
    }
}

// Whether no more brackets of the kind are open at once than may be, in each routine, those of its calls counted.
fn has_room(operations: &[Op], kind: Kind) -> bool
    requires routines { HasRoutines operations.now }
    requires paired { Each operations.now (λ p. IsPaired operations.now (open_at operations.now p)) }
    ensures { IsTrue result ↔ HasRoomFor kind operations.now }
{
    let most = most(kind);
    let mut depth = 0;
    let mut deepest: u8 = 0;
    let mut ended = [0; 32];
    let mut routine: u8 = 0;
    for op in operations {
        let effect = effect_on(*op, kind);
        deepest = deepest.max(peak(effect, depth, &ended));
        if most < deepest {
            return false;
        }
        if let Effect::Ends = effect {
            ended[routine as usize] = deepest;
            routine += 1;
            deepest = 0;
        }
        depth = next_depth(effect, depth);
    }
    true
}

/// Whether Loop with Again and Begin with Pace pair as two kinds of brackets of one nesting in each routine, each Leave
/// stands in a loop, and at most 17 loops and 16 frames are open along the Calls; told by the innermost bracket of each
/// place.
pub fn is_nested(operations: &[Op], brackets: &[u16; 4096]) -> bool
    requires size { length operations.now ≤ 4096 }
    requires ends { EndsInHalt operations.now }
    requires routines { HasRoutines operations.now }
    requires marked { AreBrackets operations.now brackets.now }
    ensures { IsTrue result ↔ IsNested operations.now }
{
    if !all_pair(operations, brackets) {
        return false;
    }
    if brackets[operations.len() - 1] != 0 {
        return false;
    }
    has_room(operations, Kind::Loops) && has_room(operations, Kind::Frames)
}
