//! The rule by which a recording is judged where no other is given.
ghost use Rattle.judge_rules.specs.Rules.{rules_in};
ghost use Rattle.judge_rules.specs.Standard.{standard_rule};
ghost use Rattle.std.specs.Prelude.{◌≡◌, ◌∷◌, [], Ok, codes};

/// Law: the text `expect any clean` spells one rule, of line 1, by which each message has to be clean.
pub fn clean_is_one_rule()
    ensures { rules_in (codes "expect any clean") ≡ Ok (standard_rule ∷ []) }
{}
