//! Names, as those of labels and programs.

use crate::limits::NAME_LIMIT;
use arrayvec::ArrayVec;
use std::fmt;
use std::marker::Model;

/// A name of at most `NAME_LIMIT` bytes, in upper case; a contract sees it as the list of its bytes.
#[derive(Drop, PartialEq, Eq, Hash)]
pub struct NameText {
    bytes: ArrayVec<u8, NAME_LIMIT>,
}

impl Model for NameText {
    ghost use Rattle.std.specs.Prelude.{List, ℕ};

    ghost Value = { List ℕ };

    ghost view = { λ n. n.bytes.items };

    ghost inverse = { λ bytes. record { bytes = record { items = bytes } } };
}

impl Default for NameText {
    ghost use Rattle.std.specs.Prelude.{◌≡◌, []};

    ghost is_default = { λ name. name ≡ [] };

    fn default() -> NameText {
        NameText {
            bytes: ArrayVec::new(),
        }
    }
}

impl NameText {
    ghost use Rattle.std.specs.Prelude.{◌≡◌, ◌<◌, ◌≤◌, ◌∷◌, length};
    ghost use Rattle.nc_expressions.specs.NameTexts.{name_of};

    /// The name that has the letters of a word in upper case, of its first `NAME_LIMIT` bytes where it is
    /// longer.
    pub fn of_word(word: &[u8]) -> NameText
        ensures { result ≡ name_of word.now }
    {
        let mut bytes = ArrayVec::new();
        for byte in &word[..word.len().min(NAME_LIMIT)] {
            bytes.push(byte.to_ascii_uppercase());
        }
        NameText { bytes }
    }

    /// The name of a program that is L and these digits.
    pub fn numbered(digits: &[u8]) -> NameText
        requires { length digits.now < NAME_LIMIT }
        ensures { result ≡ 76 ∷ digits.now }
    {
        let mut bytes = ArrayVec::new();
        bytes.push(b'L');
        for digit in digits {
            bytes.push(*digit);
        }
        NameText { bytes }
    }

    /// The bytes of the name.
    pub fn as_bytes(&self) -> &[u8]
        ensures bytes { result.now ≡ self.now }
        ensures short { length result.now ≤ NAME_LIMIT }
    {
        self.bytes.as_slice()
    }
}

impl fmt::Debug for NameText {
    fn fmt<W: fmt::Write>(&self, f: &mut fmt::Formatter<W>) -> fmt::Result {
        for byte in self.as_bytes() {
            write!(f, "{}", *byte as char)?;
        }
        Ok(())
    }
}
