//! Names of definitions, and the names in scope.

ghost use Rattle.frame_tree.specs.Names.{is_letter, are_word_bytes, begins, is_name, same_bytes, meant_by, is_known};
ghost use Rattle.frame_tree.specs.Scopes.{scope_of};
ghost use Rattle.std.specs.Prelude.{◌≡◌, ◌≤◌, true, if◌then◌else◌, Some, None, length};

use arrayvec::ArrayVec;
use std::marker::Model;

/// The name of a definition: 1 to 16 letters, digits and `_`, the first a letter. Contracts see its bytes.
#[derive(Debug, Drop, PartialEq, Eq)]
pub struct Name {
    bytes: ArrayVec<u8, 16>,
}

impl Model for Name {
    ghost use Rattle.std.specs.Prelude.{◌≡◌, ℕ, List, true};

    ghost Value = { List ℕ };

    ghost use Rattle.frame_tree.specs.Names.{is_name};

    ghost view = { λ n. n.bytes.items };

    ghost invariant = { λ n. is_name n.bytes.items ≡ true };

    ghost inverse = { λ bs. record { bytes = record { items = bs } } };
}

impl Name {
    /// The name of these bytes, if they are one.
    pub fn new(bytes: &[u8]) -> Option<Name>
        ensures { result ≡ if is_name bytes.now then Some bytes.now else None }
    {
        if is_name(bytes) {
            Some(Name {
                bytes: copied(bytes),
            })
        } else {
            None
        }
    }

    /// Its bytes.
    pub fn bytes(&self) -> &[u8]
        ensures value { result.now ≡ self.now }
        ensures name { is_name self.now ≡ true }
    {
        self.bytes.as_slice()
    }

    /// An equal name.
    pub fn copy(&self) -> Name
        ensures { result ≡ self.now }
    {
        Name {
            bytes: copied(self.bytes.as_slice()),
        }
    }

    /// Whether it is the same name.
    pub fn is(&self, other: &Name) -> bool
        ensures { result ≡ same_bytes self.now other.now }
    {
        are_same(self.bytes.as_slice(), other.bytes.as_slice())
    }
}

fn copied(bytes: &[u8]) -> ArrayVec<u8, 16>
    requires { length bytes.now ≤ 16 }
    ensures { result.items ≡ bytes.now }
{
    let mut copied = ArrayVec::new();
    // There is room for all of them.
    let _ = copied.try_extend_from_slice(bytes);
    copied
}

fn are_same(a: &[u8], b: &[u8]) -> bool
    ensures { result ≡ same_bytes a.now b.now }
{
    a == b
}

fn is_letter(byte: u8) -> bool
    ensures { result ≡ is_letter byte }
{
    byte.is_ascii_uppercase() || byte.is_ascii_lowercase()
}

// Whether all bytes are letters, digits or `_`.
fn are_word_bytes(bytes: &[u8]) -> bool
    ensures { result ≡ are_word_bytes bytes.now }
{
    match bytes.split_first() {
        None => true,
        Some((byte, rest)) => {
            (is_letter(*byte) || byte.is_ascii_digit() || *byte == b'_') && are_word_bytes(rest)
        }
    }
}

fn begins(bytes: &[u8]) -> bool
    ensures { result ≡ begins bytes.now }
{
    match bytes.split_first() {
        None => false,
        Some((byte, _)) => is_letter(*byte),
    }
}

fn is_name(bytes: &[u8]) -> bool
    ensures { result ≡ is_name bytes.now }
{
    begins(bytes) && are_word_bytes(bytes) && bytes.len() <= 16
}

/// The definitions in scope, the latest first, each with a number of its own, as how many messages a call of it sends.
#[derive(Clone, Copy)]
pub enum Scope<'a> {
    /// None.
    Empty,
    /// One more.
    With(&'a Name, u32, &'a Scope<'a>),
}

impl Scope<'_> {
    /// The number of a name; 0 where it is not in scope.
    pub fn number_of(&self, name: &Name) -> u32
        ensures { result ≡ meant_by 0 (scope_of self.now) name.now }
    {
        match self {
            Scope::Empty => 0,
            Scope::With(first, number, others) => {
                if first.is(name) {
                    *number
                } else {
                    others.number_of(name)
                }
            }
        }
    }

    /// Whether a name is in scope.
    pub fn has(&self, name: &Name) -> bool
        ensures { result ≡ is_known (scope_of self.now) name.now }
    {
        match self {
            Scope::Empty => false,
            Scope::With(first, _, others) => first.is(name) || others.has(name),
        }
    }
}
