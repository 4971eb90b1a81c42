//! Laws of the definitions of this crate, each the contract of a function that does nothing.
ghost use Rattle.frame_text.specs.Chains.{ScriptsReadBack};

/// Law: a sound tree that is a chain of frames, behind definitions or not, is the tree of the text that is printed of
/// it; so each has a text.
pub fn scripts_read_back()
    ensures { ScriptsReadBack }
{}
