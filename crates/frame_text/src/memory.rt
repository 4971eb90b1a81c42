//! Where memory was refused.

/// The value of a call that takes memory; where memory was refused, the function returns the fault, which keeps how
/// many bytes are left behind the token that was being read.
macro_rules! or_refused {
    ($call:expr, $rest:expr) => {
        match $call {
            Ok(value) => value,
            Err(_) => return Err(TextFault::Memory($rest.len())),
        }
    };
}

pub(crate) use or_refused;
