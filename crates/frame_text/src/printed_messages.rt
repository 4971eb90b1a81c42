//! Messages as text.

ghost use Rattle.frame_text.specs.PrintedMessages as texts;
ghost use Rattle.mil_word.specs.Printing.{line_text};
ghost use Rattle.std.specs.Prelude.{◌≡◌, ◌++◌, OnOk, string_bytes};

use mil_message::{Form, Message, ModeSubaddress};
use mil_word::Line;
use std::alloc::AllocError;
use std::fmt::{self, Display, Formatter, Write};
use std::slice;

fn line_word(line: Line) -> &'static str
    ensures { result.now ≡ line_text line }
{
    match line {
        Line::A => "A",
        Line::B => "B",
    }
}

// The word of a mode command to one terminal.
fn mode_word(subaddress: ModeSubaddress) -> &'static str
    ensures { result.now ≡ texts.mode_text subaddress }
{
    match subaddress {
        ModeSubaddress::Zero => "mode0",
        ModeSubaddress::ThirtyOne => "mode",
    }
}

// The word of a mode command to all terminals.
fn mode_all_word(subaddress: ModeSubaddress) -> &'static str
    ensures { result.now ≡ texts.mode_all_text subaddress }
{
    match subaddress {
        ModeSubaddress::Zero => "bmode0",
        ModeSubaddress::ThirtyOne => "bmode",
    }
}

/// A data word as four hexadecimal digits, in upper case.
#[derive(Clone, Copy)]
struct DataWordText(u16);

impl Display for DataWordText {
    ghost use Rattle.frame_text.specs.PrintedMessages.{data_word_text};
    ghost use Rattle.std.specs.Prelude.{Some};

    ghost output = { λ w. Some (data_word_text w.0) };

    fn fmt<W: Write>(&self, f: &mut Formatter<W>) -> fmt::Result {
        let high = (self.0 / 256) as u8;
        let low = (self.0 % 256) as u8;
        write!(f, "{high:02X}{low:02X}")
    }
}

/// Data words, each behind a space.
#[derive(Clone, Copy)]
struct MoreWordsText<'a>(&'a [u16]);

impl Display for MoreWordsText<'_> {
    ghost use Rattle.frame_text.specs.PrintedMessages.{spaced_data};
    ghost use Rattle.std.specs.List.{flat_map};
    ghost use Rattle.std.specs.Prelude.{Some};

    ghost output = { λ ws. Some (flat_map spaced_data ws.0.now) };

    fn fmt<W: Write>(&self, f: &mut Formatter<W>) -> fmt::Result {
        for word in self.0 {
            write!(f, " {}", DataWordText(*word))?;
        }
        Ok(())
    }
}

/// Data words in their brackets.
#[derive(Clone, Copy)]
struct BracketedText<'a>(&'a [u16]);

impl Display for BracketedText<'_> {
    ghost use Rattle.frame_text.specs.PrintedMessages.{bracketed_text};
    ghost use Rattle.std.specs.Prelude.{Some};

    ghost output = { λ ws. Some (bracketed_text ws.0.now) };

    fn fmt<W: Write>(&self, f: &mut Formatter<W>) -> fmt::Result {
        let Some((first, rest)) = self.0.split_first() else {
            return f.write_str("[]");
        };
        let first = DataWordText(*first);
        let rest = MoreWordsText(rest);
        write!(f, "[{first}{rest}]")
    }
}

/// A mode command.
#[derive(Clone, Copy)]
struct ModeCommandText<'a>(&'a Form);

impl Display for ModeCommandText<'_> {
    ghost use Rattle.frame_text.specs.PrintedMessages.{mode_command_text};

    ghost output = { λ form. mode_command_text form.0.now };

    fn fmt<W: Write>(&self, f: &mut Formatter<W>) -> fmt::Result {
        match self.0 {
            Form::Mode {
                address,
                subaddress,
                code,
            }
            | Form::ModeFrom {
                address,
                subaddress,
                code,
            } => {
                let word = mode_word(*subaddress);
                write!(f, "{word} {address} {code}")
            }
            Form::ModeTo {
                address,
                subaddress,
                code,
                word,
            } => {
                let first = mode_word(*subaddress);
                let words = BracketedText(slice::from_ref(word));
                write!(f, "{first} {address} {code} {words}")
            }
            Form::ModeAll { subaddress, code } => {
                let word = mode_all_word(*subaddress);
                write!(f, "{word} {code}")
            }
            Form::ModeAllTo {
                subaddress,
                code,
                word,
            } => {
                let first = mode_all_word(*subaddress);
                let words = BracketedText(slice::from_ref(word));
                write!(f, "{first} {code} {words}")
            }
            _ => f.write_str(""),
        }
    }
}

/// A message as its words.
#[derive(Clone, Copy)]
struct MessageText<'a>(&'a Message);

impl Display for MessageText<'_> {
    ghost use Rattle.frame_text.specs.PrintedMessages.{message_text};
    ghost use Rattle.std.specs.Prelude.{Some};

    ghost output = { λ m. Some (message_text m.0.now) };

    fn fmt<W: Write>(&self, f: &mut Formatter<W>) -> fmt::Result {
        match self.0.form() {
            Form::ToTerminal {
                address,
                subaddress,
                words,
            } => {
                let words = BracketedText(words.as_slice());
                write!(f, "rx {address} {subaddress} {words}")
            }
            Form::FromTerminal {
                address,
                subaddress,
                count,
            } => write!(f, "tx {address} {subaddress} {count}"),
            Form::Between {
                sender,
                sender_subaddress,
                receiver,
                receiver_subaddress,
                count,
            } => write!(
                f,
                "rt {sender} {sender_subaddress} {receiver} {receiver_subaddress} {count}"
            ),
            Form::ToAll { subaddress, words } => {
                let words = BracketedText(words.as_slice());
                write!(f, "brx {subaddress} {words}")
            }
            Form::BetweenAll {
                sender,
                sender_subaddress,
                receiver_subaddress,
                count,
            } => write!(
                f,
                "brt {sender} {sender_subaddress} {receiver_subaddress} {count}"
            ),
            mode_command => write!(f, "{}", ModeCommandText(mode_command)),
        }
    }
}

/// A line and a message as what stands behind `send` in a script.
#[derive(Clone, Copy)]
pub struct SendText<'a> {
    pub line: Line,
    pub message: &'a Message,
}

impl Display for SendText<'_> {
    ghost use Rattle.frame_text.specs.PrintedMessages.{line_and_message_text};
    ghost use Rattle.std.specs.Prelude.{Some};

    ghost output = { λ s. Some (line_and_message_text s.line s.message.now) };

    fn fmt<W: Write>(&self, f: &mut Formatter<W>) -> fmt::Result {
        let line = line_word(self.line);
        let message = MessageText(self.message);
        write!(f, "{line} {message}")
    }
}

/// A line and a message.
pub fn put_send(out: &mut String, line: Line, message: &Message) -> Result<(), AllocError>
    ensures { OnOk result (string_bytes out.new ≡ string_bytes out.old ++ texts.send_text line message.now) }
{
    let text = SendText { line, message };
    write!(out, "send {text}")
}
