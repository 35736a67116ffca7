ghost use Rattle.std.specs.Prelude.{◌≡◌, ◌∷◌, ◌++◌, map, OnOk};
ghost use Rattle.std.specs.Fmt.{decimal};
ghost use Rattle.reply_text.specs.Parts.{spaced_words, entries_words};

use itoa::Buffer;
use std::alloc::AllocError as NoMemory;

/// Appends the number.
pub fn put_number(out: &mut Vec<u8>, number: u32) -> Result<(), NoMemory>
    ensures { OnOk result (out.new.items ≡ out.old.items ++ decimal number) }
{
    let mut buffer = Buffer::new();
    out.extend_from_slice(buffer.format(number).as_bytes())
}

/// Appends a space and the number.
pub fn put_next(out: &mut Vec<u8>, number: u32) -> Result<(), NoMemory>
    ensures { OnOk result (out.new.items ≡ out.old.items ++ 32 ∷ decimal number) }
{
    out.push(b' ')?;
    put_number(out, number)
}

/// Appends a space and a count.
pub fn put_count(out: &mut Vec<u8>, count: usize) -> Result<(), NoMemory>
    ensures { OnOk result (out.new.items ≡ out.old.items ++ 32 ∷ decimal count) }
{
    out.push(b' ')?;
    let mut buffer = Buffer::new();
    out.extend_from_slice(buffer.format(count).as_bytes())
}

/// Appends a space before each number, and the number.
pub fn put_all(out: &mut Vec<u8>, numbers: &[u32]) -> Result<(), NoMemory>
    ensures { OnOk result (out.new.items ≡ out.old.items ++ spaced_words (map decimal numbers.now)) }
{
    for number in numbers {
        put_next(out, *number)?;
    }
    Ok(())
}

/// Appends a space before each entry, and the entry.
pub fn put_entries(out: &mut Vec<u8>, entries: &[u8]) -> Result<(), NoMemory>
    ensures { OnOk result (out.new.items ≡ out.old.items ++ entries_words entries.now) }
{
    for entry in entries {
        put_next(out, u32::from(*entry))?;
    }
    Ok(())
}

/// Appends the word, a space and the number.
pub fn put_named(out: &mut Vec<u8>, word: &[u8], number: u32) -> Result<(), NoMemory>
    ensures { OnOk result (out.new.items ≡ out.old.items ++ (word.now ++ 32 ∷ decimal number)) }
{
    out.extend_from_slice(word)?;
    put_next(out, number)
}
