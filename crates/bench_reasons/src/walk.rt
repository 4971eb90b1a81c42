//! A walk over the words of a text: what may stand next, and which brackets are open.

use crate::places::last_of;
use crate::symbols::Symbol;
use frame_text::next_token;
use std::alloc::{AllocError, Global};
use std::str;

/// What may stand next in a text, and which brackets are open.
#[derive(Drop)]
pub struct Walk {
    /// What has to stand behind one another, the next one last.
    ahead: Vec<Symbol>,
    /// How many bytes were left of the text at each bracket that is open, the innermost last.
    open: Vec<usize>,
}

/// A word as text; an empty one where it is none.
pub fn text_of(word: &[u8]) -> &str {
    str::from_utf8(word).unwrap_or("")
}

impl Walk {
    /// A walk before its first word, where these have to stand, the first of them last.
    pub fn begin(alloc: Global, first: &[Symbol]) -> Result<Walk, AllocError> {
        let mut ahead = Vec::new(alloc);
        ahead.extend_from_slice(first)?;
        Ok(Walk {
            ahead,
            open: Vec::new(alloc),
        })
    }

    /// What has to stand where a word stands next; none where nothing may. What may be missing is let go where the
    /// word does not begin it.
    pub fn wanted(&mut self, word: &str) -> Option<Symbol> {
        for _ in 0..self.ahead.len() {
            match self.ahead.last() {
                Some(symbol) if symbol.may_be_missing() && symbol.behind(word).is_none() => {}
                found => return found.copied(),
            }
            // It is left out.
            let _ = self.ahead.pop();
        }
        None
    }

    /// Takes a word that has so many bytes left from its first one on. Answers whether it may stand there, where
    /// words of a kind are not judged.
    pub fn take(&mut self, word: &str, left: usize) -> Result<bool, AllocError> {
        let Some(symbol) = self.wanted(word) else {
            return Ok(false);
        };
        let Some(behind) = symbol.behind(word) else {
            return Ok(false);
        };
        // Its place is taken.
        let _ = self.ahead.pop();
        if let Some(still) = symbol.left(word) {
            self.ahead.push(still)?;
        }
        for one in behind.iter().rev() {
            self.ahead.push(*one)?;
        }
        match word {
            "{" | "(" | "[" => self.open.push(left)?,
            "}" | ")" | "]" => {
                // It is closed.
                let _ = self.open.pop();
            }
            _ => {}
        }
        Ok(true)
    }

    /// What still has to stand; none where nothing has to.
    pub fn missing(&self) -> Option<Symbol> {
        match self.ahead.last() {
            Some(symbol) if symbol.may_be_missing() => None,
            found => found.copied(),
        }
    }

    /// How many bytes were left at the innermost bracket that is open.
    pub fn innermost(&self) -> Option<usize> {
        self.open.last().copied()
    }
}

/// A walk over the tokens of a text up to the one with so many bytes left from its first one on; none where a token
/// before it may not stand where it does.
pub fn walk_to(
    alloc: Global,
    text: &[u8],
    first: &[Symbol],
    left: usize,
) -> Result<Option<Walk>, AllocError> {
    let mut walk = Walk::begin(alloc, first)?;
    let mut rest = text;
    for _ in 0..text.len() {
        let Some((token, behind)) = next_token(rest) else {
            break;
        };
        let here = token.len().saturating_add(behind.len());
        if here <= left {
            break;
        }
        if !walk.take(text_of(token), here)? {
            return Ok(None);
        }
        rest = behind;
    }
    Ok(Some(walk))
}

/// The token of a text with so many bytes left from its first one on; empty at the end.
pub fn token_at(text: &[u8], left: usize) -> &[u8] {
    match next_token(last_of(text, left)) {
        Some((token, _)) => token,
        None => b"",
    }
}
