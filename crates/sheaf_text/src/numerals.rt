ghost use Rattle.std.specs.Prelude.{◌≡◌, ◌<◌, ◌^◌, length};
ghost use Rattle.std.specs.List.{list_all};
ghost use Rattle.sheaf_text.specs.Cut.{words};
ghost use Rattle.sheaf_text.specs.Forms.{is_number, are_below};

use crate::cut::next_word;
use crate::words::number;
use std::marker::Model;

/// The words of a text, seen by contracts as a list, and what is asked of them where they have to be numbers.
#[derive(Drop)]
pub(crate) struct Numerals<'a> {
    text: &'a [u8],
    /// How many words there are.
    count: usize,
    /// Whether all are numbers.
    are_numbers: bool,
    /// The largest of the numbers.
    highest: u32,
}

impl<'a> Model for Numerals<'a> {
    ghost use Rattle.std.specs.Prelude.{List, ℕ};
    ghost use Rattle.sheaf_text.specs.Cut.{words};
    ghost use Rattle.sheaf_text.specs.Heads.{AreCounted};

    ghost Value = { List (List ℕ) };

    ghost view = { λ n. words n.text.now };

    ghost invariant = { λ n. AreCounted n.text.now n.count n.are_numbers n.highest };
}

impl<'a> Numerals<'a> {
    /// The words of a text, each looked at once.
    pub fn of(text: &'a [u8]) -> Numerals<'a>
        ensures { result ≡ words text.now }
    {
        let mut count = 0usize;
        let mut are_numbers = true;
        let mut highest = 0u32;
        let mut rest = text;
        while let Some((word, after)) = next_word(rest) {
            let found = number(word);
            count += 1;
            are_numbers &= found.is_some();
            highest = highest.max(found.unwrap_or(0));
            rest = after;
        }
        Numerals {
            text,
            count,
            are_numbers,
            highest,
        }
    }

    /// How many words there are.
    pub fn count(&self) -> usize
        ensures count { result ≡ length self.now }
        ensures small { result < 2 ^ 63 }
    {
        self.count
    }

    /// Whether all words are numbers.
    pub fn are_numbers(&self) -> bool
        ensures { result ≡ list_all is_number self.now }
    {
        self.are_numbers
    }

    /// Whether the numbers that the words are are all below the order.
    pub fn are_below(&self, order: u32) -> bool
        requires { 0 < order }
        ensures { result ≡ are_below order self.now }
    {
        self.highest < order
    }

    /// The text of the words.
    pub fn text(&self) -> &'a [u8]
        ensures { words result.now ≡ self.now }
    {
        self.text
    }
}
