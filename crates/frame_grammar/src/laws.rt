//! Laws of the definitions of `frame_text`, each the contract of a function that does nothing.
ghost use Rattle.frame_grammar.specs.Laws.{ConditionsAreDerived, OneTree, ScriptsAreDerived, SendsAreDerived};

/// Law: the tree that `frame_text` reads of a text is the one that the rules of the grammar derive within the limits of
/// scripts, and it reads none where they derive none.
pub fn scripts_are_derived()
    ensures { ScriptsAreDerived }
{}

/// Law: the same of the condition of a text.
pub fn conditions_are_derived()
    ensures { ConditionsAreDerived }
{}

/// Law: the same of the line and the message of a text.
pub fn sends_are_derived()
    ensures { SendsAreDerived }
{}

/// Law: the grammar is unambiguous: its rules derive at most one tree for a text.
pub fn one_tree()
    ensures { OneTree }
{}
