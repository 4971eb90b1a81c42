//! The same terminals once more.
ghost use Rattle.std.specs.Prelude.{◌≡◌, IfOk};

use mil_terminal::Terminal;
use std::alloc::{AllocError, Global};

/// Copies of terminals, in their order.
pub fn copied(alloc: Global, terminals: &[Terminal]) -> Result<Vec<Terminal>, AllocError>
    ensures { IfOk result (λ v. v.items ≡ terminals.now) }
{
    let mut copies = Vec::with_capacity(alloc, terminals.len())?;
    for terminal in terminals {
        copies.push(terminal.copy()?)?;
    }
    Ok(copies)
}
