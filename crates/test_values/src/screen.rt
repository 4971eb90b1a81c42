//! A screen, which keeps what is written to the errors.
use std::fmt::Display;
use std::io::{self, IsTerminal};
use std::sync::{Mutex, Wait};

/// What is written to the errors is kept, and asked for.
#[derive(Drop)]
pub struct Screen<'a, R: Wait + AllocGlobal> {
    rt: &'a R,
    text: Mutex<String>,
    is_terminal: bool,
}

impl<'a, R: Wait + AllocGlobal> Screen<'a, R> {
    /// A screen without a text, which says that it is a terminal, or that it is none.
    pub fn make(rt: &'a R, is_terminal: bool) -> Screen<'a, R> {
        Screen {
            rt,
            text: Mutex::new(String::new(rt.alloc())),
            is_terminal,
        }
    }

    /// Whether this text was written, and nothing else.
    pub fn shows(&self, text: &str) -> bool {
        self.text.lock(self.rt).as_str() == text
    }

    /// Whether the first text was written and then the second, and nothing else.
    pub fn shows_both(&self, first: &str, second: &str) -> bool {
        self.text.lock(self.rt).as_str().strip_prefix(first) == Some(second)
    }

    fn add(&self, text: &str) -> io::Result<()> {
        self.text.lock(self.rt).push_str(text)?;
        Ok(())
    }
}

impl<R: Wait + AllocGlobal> Eprint for Screen<'_, R> {
    fn eprint<D: Display + Drop>(&self, value: D) -> io::Result<()> {
        let text = format!(in self.rt.alloc(); "{value}")?;
        self.add(text.as_str())
    }

    fn eprintln<D: Display + Drop>(&self, value: D) -> io::Result<()> {
        let text = format!(in self.rt.alloc(); "{value}\n")?;
        self.add(text.as_str())
    }
}

impl<R: Wait + AllocGlobal> IsTerminal for Screen<'_, R> {
    fn is_terminal(&self) -> bool {
        self.is_terminal
    }
}
