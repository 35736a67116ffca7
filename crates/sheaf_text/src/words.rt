ghost use Rattle.std.specs.Prelude.{◌≡◌, ◌≤◌, true, drop, map, IfOk};
ghost use Rattle.std.specs.List.{list_all};
ghost use Rattle.sheaf_text.specs.Cut.{words, word_number, value_of};
ghost use Rattle.sheaf_text.specs.Forms.{is_number, are_below};

use crate::cut::next_word;
use dense_blocks::Entries;
use std::alloc::{AllocError as NoMemory, Global};

/// What stands after the first words of a text.
pub(crate) fn after_words(text: &[u8], count: usize) -> &[u8]
    ensures { words result.now ≡ drop count (words text.now) }
{
    let mut rest = text;
    for i in 0..count {
        match next_word(rest) {
            Some((_, after)) => rest = after,
            None => return &[],
        }
    }
    rest
}

/// The number that a word of at most nine digits is.
pub(crate) fn number(word: &[u8]) -> Option<u32>
    ensures { result ≡ word_number word.now }
{
    if word.is_empty() || word.len() > 9 {
        return None;
    }
    let mut value = 0u32;
    for b in word {
        if !b.is_ascii_digit() {
            return None;
        }
        value = value * 10 + (*b - b'0') as u32;
    }
    Some(value)
}

/// Whether all words of a text are numbers.
pub(crate) fn are_numbers(text: &[u8]) -> bool
    ensures { result ≡ list_all is_number (words text.now) }
{
    let mut rest = text;
    while let Some((word, after)) = next_word(rest) {
        if number(word).is_none() {
            return false;
        }
        rest = after;
    }
    true
}

/// The numbers that the words of a text are.
pub(crate) fn values(alloc: Global, text: &[u8]) -> Result<Vec<u32>, NoMemory>
    ensures { IfOk result (λ v. v.items ≡ map value_of (words text.now)) }
{
    let mut values = Vec::new(alloc);
    let mut rest = text;
    while let Some((word, after)) = next_word(rest) {
        values.push(number(word).unwrap_or(0))?;
        rest = after;
    }
    Ok(values)
}

/// The scalars that so many words of a text are.
pub(crate) fn scalars(
    alloc: Global,
    text: &[u8],
    count: usize,
    order: u32,
) -> Result<Entries, NoMemory>
    requires low { order ≤ 256 }
    requires below { are_below order (words text.now) ≡ true }
    ensures { IfOk result (λ e. e ≡ map value_of (words text.now)) }
{
    let mut scalars = Entries::with_room(alloc, count)?;
    let mut rest = text;
    while let Some((word, after)) = next_word(rest) {
        scalars.push(number(word).unwrap_or(0) as u8)?;
        rest = after;
    }
    Ok(scalars)
}
