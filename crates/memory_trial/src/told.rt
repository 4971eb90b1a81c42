//! What a call came to.

/// What a call came to.
#[derive(Clone, Copy)]
pub(crate) enum Told {
    /// Memory was refused before the call.
    Early,
    /// The call answered its own refusal for want of memory, and what it was made on is as it was before.
    Refused,
    /// The call answered as it does with ample memory.
    Well,
    /// The call answered anything else, or what it was made on has changed.
    Wrong,
}

impl Told {
    /// Of a call that can be refused for want of memory alone, and changes nothing: whether it succeeded.
    pub(crate) fn of(well: bool) -> Told {
        if well { Told::Well } else { Told::Refused }
    }

    /// Of a call that answered its refusal for want of memory: whether all is as it was before.
    pub(crate) fn refused(same: bool) -> Told {
        if same { Told::Refused } else { Told::Wrong }
    }

    /// Of a call that succeeded: whether all is as it should be.
    pub(crate) fn well(good: bool) -> Told {
        if good { Told::Well } else { Told::Wrong }
    }

    /// The word that is printed.
    pub(crate) fn word(&self) -> &'static str {
        match self {
            Told::Early => "early",
            Told::Refused => "refused",
            Told::Well => "well",
            Told::Wrong => "wrong",
        }
    }
}
