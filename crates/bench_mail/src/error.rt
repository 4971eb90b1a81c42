//! Why no mailbox was made, and why an action was not posted.
use bc_machine::HostAction;
use std::error::Error;
use std::fmt::{self, Display, Formatter, Write};

/// Why no mailbox was made.
#[derive(Clone, Copy, Debug, PartialEq, Eq)]
pub enum MailError {
    /// `E1`: the capacity is outside 1 to 4096 posts.
    Capacity,
    /// `E2`: memory was refused.
    Memory,
}

/// `E1` and `E2`.
impl Display for MailError {
    ghost use Rattle.bench_mail.specs.MailCodes.{mail_code};
    ghost use Rattle.std.specs.Prelude.{Some};

    ghost output = { λ fault. Some (mail_code fault) };

    fn fmt<W: Write>(&self, f: &mut Formatter<W>) -> fmt::Result {
        f.write_str(match self {
            MailError::Capacity => "E1",
            MailError::Memory => "E2",
        })
    }
}

impl Error for MailError {}

/// Why an action was not posted; the action comes back.
#[derive(Debug, Drop)]
pub enum PostError {
    /// `E3`: the job has no terminal at the address.
    NoTerminal { action: HostAction },
    /// `E4`: the mailbox was full.
    Full { action: HostAction },
}

/// `E3` and `E4`.
impl Display for PostError {
    ghost use Rattle.bench_mail.specs.MailCodes.{post_code};
    ghost use Rattle.std.specs.Prelude.{Some};

    ghost output = { λ fault. Some (post_code fault) };

    fn fmt<W: Write>(&self, f: &mut Formatter<W>) -> fmt::Result {
        f.write_str(match self {
            PostError::NoTerminal { .. } => "E3",
            PostError::Full { .. } => "E4",
        })
    }
}

impl Error for PostError {}
