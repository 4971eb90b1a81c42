//! The selected messages of a channel.
ghost use Rattle.bench_stat.specs.Chosen.{picked};
ghost use Rattle.std.specs.Prelude.{◌≡◌, ◌+◌, ◌<◌, ◌^◌, ◌∷◌, [], length, MatchOption};

use bench_select::Selection;
use ch11_f1::Messages;
use ch11_layout::{StampKind, View};

/// The next selected message of a packet of the channel, whose stamps are of this kind and whose messages stand behind
/// so many of the file.
pub(crate) fn next_selected<'a>(
    messages: &mut Messages<'a>,
    before: &mut u64,
    selection: &Selection,
    kind: StampKind,
    channel: u16,
) -> Option<View<'a>>
    requires { before.old + length messages.old < 2 ^ 64 }
    ensures picked { MatchOption result
        ((picked selection.now kind channel before.old messages.old ≡ []) × (messages.new ≡ []))
        (λ view. picked selection.now kind channel before.old messages.old
        ≡ view ∷ picked selection.now kind channel before.new messages.new) }
    ensures counted { before.new + length messages.new ≡ before.old + length messages.old }
{
    'messages: while let Some(seen) = messages.next() {
        let view = View::of(kind, &seen);
        *before += 1;
        if selection.selects(*before, channel, &view) {
            return Some(view);
        }
    }
    None
}
