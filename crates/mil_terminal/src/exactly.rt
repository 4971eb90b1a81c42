//! Words to be sent, exactly as many as are asked for.
ghost use Rattle.arrayvec.specs.ArrayVec.{array_vec_len};
ghost use Rattle.mil_terminal.specs.Replies.{exactly};
ghost use Rattle.std.specs.Prelude.{◌≡◌, ◌+◌, ◌≤◌, ◌++◌, replicate};

use arrayvec::ArrayVec;

/// So many words: the first of these, and zeros where there are fewer.
pub(crate) fn push_exactly<const CAP: usize>(
    words: &mut ArrayVec<u16, CAP>,
    count: usize,
    from: &[u16],
)
    requires room { array_vec_len words.old + count ≤ CAP }
    requires few { count ≤ 33 }
    ensures { words.new.items ≡ words.old.items ++ exactly count from.now }
{
    let taken = if count < from.len() {
        count
    } else {
        from.len()
    };
    // There is room for all of them.
    let _ = words.try_extend_from_slice(&from[..taken]);
    push_zeros(words, count - taken);
}

/// So many zeros.
fn push_zeros<const CAP: usize>(words: &mut ArrayVec<u16, CAP>, count: usize)
    requires room { array_vec_len words.old + count ≤ CAP }
    requires few { count ≤ 33 }
    ensures { words.new.items ≡ words.old.items ++ replicate count 0 }
{
    let zeros = [0; 33];
    // There is room for all of them.
    let _ = words.try_extend_from_slice(&zeros[..count]);
}
