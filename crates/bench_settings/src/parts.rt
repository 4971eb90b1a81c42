//! The part of a report that tells of one channel.
ghost use Rattle.bc_machine.specs.declared.placed.Placed.{Placed};
ghost use Rattle.bench_settings.specs.Placing.{placed_up_to, IsOrdered};
ghost use Rattle.bench_report.specs.Reports.{Rises};
ghost use Rattle.std.specs.Prelude.{◌≡◌, ◌≤◌, List};

use bc_machine::Actions;
use bench_report::ChannelReport;

/// The part of a channel, 1 to 65,535, that made up to 1,000,000 messages, of which the refused rise: of its ordered
/// actions it has those at numbers up to the number made. It takes no memory.
pub fn channel_report(channel: u16, made: u32, refused: Vec<u32>, ordered: Actions) -> ChannelReport
    requires channel { 1 ≤ channel }
    requires made { made ≤ 1000000 }
    requires refused { Rises 0 made refused.items }
    requires ordered { IsOrdered ordered }
    ensures channel { result.channel ≡ channel }
    ensures made { result.made ≡ made }
    ensures refused { result.refused ≡ refused.items }
    ensures placed { (actions : List Placed) → ordered ≡ placed_up_to 1000000 actions
        → result.placed ≡ placed_up_to made actions }
{
    let mut placed = ordered;
    let kept = placed.behind(made);
    placed.truncate(kept);
    ChannelReport::make(channel, made, refused, placed)
}
