//! What stands before and behind the data of each page.

use crate::front::FRONT;
use crate::page::Template;
use crate::script_1::SCRIPT_1;
use crate::script_2::SCRIPT_2;
use crate::script_3::SCRIPT_3;
use crate::script_4::SCRIPT_4;
use crate::script_5::SCRIPT_5;
use std::alloc::{AllocError, Global};

/// The page without its data.
pub fn template(alloc: Global) -> Result<Template, AllocError> {
    let mut front = Vec::new(alloc);
    front.extend_from_slice(FRONT.as_bytes())?;
    let mut behind = Vec::new(alloc);
    for part in [SCRIPT_1, SCRIPT_2, SCRIPT_3, SCRIPT_4, SCRIPT_5] {
        behind.extend_from_slice(part.as_bytes())?;
    }
    Ok(Template { front, behind })
}
