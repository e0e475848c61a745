//! A text that is written piece by piece.
ghost use Rattle.std.specs.Prelude.{◌≡◌, ◌<◌, [], ◌++◌, IfOk};
ghost use Rattle.std.specs.Fmt.{decimal};
ghost use Rattle.growing_text.specs.Lengths.{millimetres_text, size_text};

use crate::said::Said;
use itoa::Buffer;
use out_of_memory::NoMemory;
use std::alloc::Global;
use std::marker::Model;

/// A text that grows at its end. Where memory is too short nothing more is added, and `finish` says so.
/// In clauses it is all that it was told, be memory too short or not.
#[derive(Drop)]
pub struct Text {
    bytes: Vec<u8>,
    is_short: bool,
    said: Said,
}

impl Model for Text {
    ghost use Rattle.std.specs.Prelude.{◌≡◌, List, ℕ, false};

    ghost Value = { List ℕ };

    ghost view = { λ t. t.said.bytes };

    ghost invariant = { λ t. t.is_short ≡ false → t.bytes.items ≡ t.said.bytes };
}

impl Text {
    /// An empty text.
    pub fn new(alloc: Global) -> Text
        ensures { result ≡ [] }
    {
        Text {
            bytes: Vec::new(alloc),
            is_short: false,
            said: Said::nothing(),
        }
    }

    /// Adds bytes.
    pub fn bytes(&mut self, bytes: &[u8])
        ensures { self.new ≡ self.old ++ bytes.now }
    {
        if !self.is_short && self.bytes.extend_from_slice(bytes).is_err() {
            self.is_short = true;
        }
        self.said = self.said.and(bytes);
    }

    /// Adds a text.
    pub fn say(&mut self, text: &str)
        ensures { self.new ≡ self.old ++ text.now }
    {
        self.bytes(text.as_bytes());
    }

    /// Adds the digits of a number.
    pub fn number(&mut self, number: u64)
        ensures { self.new ≡ self.old ++ decimal number }
    {
        self.say(Buffer::new().format(number));
    }

    /// Adds a digit.
    fn digit(&mut self, digit: u8)
        requires { digit < 10 }
        ensures { self.new ≡ self.old ++ decimal digit }
    {
        self.bytes([b'0' + digit].as_slice());
    }

    /// Adds so many micrometres as millimetres with three decimals.
    #[tactic(auto, unfolding(crate::specs::Lengths::size_text))]
    fn size(&mut self, size: u64)
        ensures { self.new ≡ self.old ++ size_text size }
    {
        self.number(size / 1000);
        self.say(".");
        self.digit((size / 100 % 10) as u8);
        self.digit((size / 10 % 10) as u8);
        self.digit((size % 10) as u8);
    }

    /// Adds so many micrometres as millimetres with three decimals, and with a sign where they are below 0.
    #[tactic(auto, unfolding(crate::specs::Lengths::millimetres_text))]
    pub fn millimetres(&mut self, micrometres: i64)
        ensures { self.new ≡ self.old ++ millimetres_text micrometres }
    {
        if micrometres < 0 {
            self.say("-");
        }
        self.size(micrometres.unsigned_abs());
    }

    /// The bytes that were added, all of them, or want of memory.
    pub fn finish(self) -> Result<Vec<u8>, NoMemory>
        ensures { IfOk result (λ text. text.items ≡ self) }
    {
        if self.is_short {
            Err(NoMemory)
        } else {
            Ok(self.bytes)
        }
    }
}
