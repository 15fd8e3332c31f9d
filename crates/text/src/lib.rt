// What is common to all text: a place for its bytes, what is read into it and printed to it, its parts between separators, and decimal
// numbers. What a text means is said elsewhere.
#![tactic(auto)]

mod block;
mod number;
mod part;
mod printer;

ghost use Rattle.text.specs.LawsOfNumbers.{PrintedIsReadBack, LibraryPrintsDigits, TwentyDigitsSuffice};

pub use number::{NumberError, read_number};
pub use part::split_once;
use std::marker::Model;

/// A number that is printed is read back as that number, and is printed as the library prints it.
#[tactic(auto, using(crate::proofs::Values::read_back, crate::proofs::Values::same_digits, crate::proofs::Values::length_decimal))]
pub fn numbers_read_back()
    ensures read_back { PrintedIsReadBack }
    ensures library { LibraryPrintsDigits }
    ensures twenty_digits { TwentyDigitsSuffice }
{}

// Bytes that were read or printed, in a fixed place of N bytes.
#[derive(Drop)]
pub struct Text<const N: usize> {
    bytes: [u8; N],
    length: usize,
}

impl<const N: usize> Model for Text<N> {
    ghost use Rattle.std.specs.Prelude.{ℕ, ◌≤◌, List, take};

    ghost Value = { List ℕ };

    ghost view = { λ t. take t.length t.bytes };

    ghost invariant = { λ t. t.length ≤ N };
}

impl<const N: usize> Text<N> {
    ghost use Rattle.std.specs.Prelude.{◌≡◌, ◌≤◌, [], length};

    pub fn new() -> Self
        ensures { result ≡ [] }
    {
        Text {
            bytes: [0; N],
            length: 0,
        }
    }

    pub fn as_bytes(&self) -> &[u8]
        ensures bytes { result.now ≡ self.now }
        ensures fits { length self.now ≤ N }
    {
        &self.bytes[..self.length]
    }

    pub fn clear(&mut self)
        ensures { self.new ≡ [] }
    {
        self.length = 0;
    }
}
