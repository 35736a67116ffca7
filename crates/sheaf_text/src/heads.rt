ghost use Rattle.std.specs.Prelude.{◌≡◌, ◌≤◌, ◌+◌, ◌<◌, ◌∷◌, [], length, drop};
ghost use Rattle.sheaf_text.specs.Cut.{words, word_number};
ghost use Rattle.sheaf_text.specs.Lines.{word, value};
ghost use Rattle.sheaf_text.specs.Heads.{IsHead};

use crate::cut::next_word;
use crate::numerals::Numerals;
use crate::words::number;
use std::marker::Model;

/// The words of a line that has a first one, seen by contracts as their list; each is cut once.
#[derive(Drop)]
pub(crate) struct LineWords<'a> {
    first: &'a [u8],
    /// What stands after the first word.
    after: &'a [u8],
    /// The numbers at the places 1 and 2.
    s: Option<u32>,
    t: Option<u32>,
    /// The word at the place 3.
    sign: &'a [u8],
    /// The words from the place 4 on.
    entries: Numerals<'a>,
    /// How many words there are.
    count: usize,
}

impl<'a> Model for LineWords<'a> {
    ghost use Rattle.std.specs.Prelude.{List, ℕ, ◌∷◌};
    ghost use Rattle.sheaf_text.specs.Cut.{words};
    ghost use Rattle.sheaf_text.specs.Heads.{AreCut};

    ghost Value = { List (List ℕ) };

    ghost view = { λ l. l.first.now ∷ words l.after.now };

    ghost invariant = { λ l. AreCut (words l.after.now) l.s l.t l.sign.now l.entries l.count };
}

/// The first word of a text, without bytes where there is none; the text after it; and how many words were cut.
fn head(text: &[u8]) -> (&[u8], &[u8], usize)
    ensures { IsHead (words text.now) result.0.now (words result.1.now) result.2 }
{
    match next_word(text) {
        Some((word, after)) => (word, after, 1),
        None => (&[], &[], 0),
    }
}

impl<'a> LineWords<'a> {
    /// The words of a line whose first word stands before a text.
    pub fn of(first: &'a [u8], after: &'a [u8]) -> LineWords<'a>
        ensures { result ≡ first.now ∷ words after.now }
    {
        let (s, after_s, s_count) = head(after);
        let (t, after_t, t_count) = head(after_s);
        let (sign, rest, sign_count) = head(after_t);
        let entries = Numerals::of(rest);
        let count = 1 + s_count + t_count + sign_count + entries.count();
        LineWords {
            first,
            after,
            s: number(s),
            t: number(t),
            sign,
            entries,
            count,
        }
    }

    /// The first word.
    pub fn first(&self) -> &'a [u8]
        ensures { result.now ≡ word self.now 0 }
    {
        self.first
    }

    /// What stands after the first word.
    pub fn after(&self) -> &'a [u8]
        ensures { words result.now ≡ drop 1 self.now }
    {
        self.after
    }

    /// How many words there are.
    pub fn count(&self) -> usize
        ensures { result ≡ length self.now }
    {
        self.count
    }

    /// The number at the place 1.
    pub fn s(&self) -> Option<u32>
        ensures { result ≡ word_number (word self.now 1) }
    {
        self.s
    }

    /// The number at the place 2.
    pub fn t(&self) -> Option<u32>
        ensures { result ≡ word_number (word self.now 2) }
    {
        self.t
    }

    /// The number at the place 1; 0 where there is none.
    pub fn s_value(&self) -> u32
        ensures { result ≡ value self.now 1 }
    {
        self.s.unwrap_or(0)
    }

    /// The number at the place 2; 0 where there is none.
    pub fn t_value(&self) -> u32
        ensures { result ≡ value self.now 2 }
    {
        self.t.unwrap_or(0)
    }

    /// The word at the place 3, without bytes where there is none.
    pub fn sign(&self) -> &'a [u8]
        ensures { result.now ≡ word self.now 3 }
    {
        self.sign
    }

    /// The words from the place 4 on.
    pub fn entries(&self) -> &Numerals<'a>
        ensures { result.now ≡ drop 4 self.now }
    {
        &self.entries
    }
}
