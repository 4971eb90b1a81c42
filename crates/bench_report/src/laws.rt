//! What the definition of a report's text says.
ghost use Rattle.bench_report.specs.Reports.{RunReport, IsReport};
ghost use Rattle.bench_report.specs.Spelling.{Spells};
ghost use Rattle.std.specs.Prelude.{◌≡◌};
ghost use Rattle.text_lines.specs.Words.{Text};

/// A text spells at most one report.
pub fn text_spells_one_report()
    ensures { (text : Text) (one other : RunReport) → IsReport one → IsReport other → Spells text one
        → Spells text other → one ≡ other }
{}
