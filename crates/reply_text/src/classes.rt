ghost use Rattle.std.specs.Prelude.{◌≡◌, ◌∷◌, ◌++◌, [], map, length, codes, OnOk};
ghost use Rattle.std.specs.Fmt.{decimal};
ghost use Rattle.reply_text.specs.Parts.{spaced_words, lines_text};
ghost use Rattle.reply_text.specs.Replies.{row_line, vector_lines, class_lines};

use crate::words::{put_count, put_entries, put_named, put_next};
use sheaf_words::Row;
use std::alloc::AllocError as NoMemory;

// ---- what the first line says, after the word of the command

/// Appends the degree of a basis, and how many vectors it has.
pub(crate) fn put_basis_size(out: &mut Vec<u8>, k: u8, count: usize) -> Result<(), NoMemory>
    ensures { OnOk result (out.new.items ≡ out.old.items ++ spaced_words (decimal k ∷ decimal count ∷ [])) }
{
    put_next(out, u32::from(k))?;
    put_count(out, count)
}

/// Appends the degree of a cochain, and a cell where its coboundary is not zero.
pub(crate) fn put_open(out: &mut Vec<u8>, k: u8, t: u32) -> Result<(), NoMemory>
    ensures { OnOk result (out.new.items ≡ out.old.items
        ++ spaced_words (decimal k ∷ codes "open" ∷ decimal t ∷ [])) }
{
    put_next(out, u32::from(k))?;
    put_named(out, b" open", t)
}

/// Appends the degree of a cocycle, and the coordinates of its class.
pub(crate) fn put_closed(out: &mut Vec<u8>, k: u8, coords: &[u8]) -> Result<(), NoMemory>
    ensures { OnOk result (out.new.items ≡ out.old.items
        ++ spaced_words (decimal k ∷ codes "closed" ∷ decimal (length coords.now) ∷ map decimal coords.now)) }
{
    put_next(out, u32::from(k))?;
    out.extend_from_slice(b" closed")?;
    put_count(out, coords.len())?;
    put_entries(out, coords)
}

/// Appends the vertex of a value, and the word that says whether it extends.
pub(crate) fn put_extension(out: &mut Vec<u8>, s: u32, word: &[u8]) -> Result<(), NoMemory>
    ensures { OnOk result (out.new.items ≡ out.old.items ++ spaced_words (decimal s ∷ word.now ∷ [])) }
{
    put_next(out, s)?;
    out.push(b' ')?;
    out.extend_from_slice(word)
}

/// Appends the degree of what is no cochain, or the vertex of what is no value there, and what is wrong with it.
pub(crate) fn put_misfit(out: &mut Vec<u8>, subject: u32, fault: &[u8]) -> Result<(), NoMemory>
    ensures { OnOk result (out.new.items ≡ out.old.items
        ++ spaced_words (decimal subject ∷ codes "refused" ∷ fault.now ∷ [])) }
{
    put_next(out, subject)?;
    out.extend_from_slice(b" refused ")?;
    out.extend_from_slice(fault)
}

// ---- the lines after it

/// Appends the line of the word and these entries.
pub(crate) fn put_row(out: &mut Vec<u8>, word: &[u8], entries: &[u8]) -> Result<(), NoMemory>
    ensures { OnOk result (out.new.items ≡ out.old.items ++ lines_text (row_line word.now entries.now ∷ [])) }
{
    out.extend_from_slice(word)?;
    put_entries(out, entries)?;
    out.push(b'\n')?;
    Ok(())
}

/// Appends a line for each vector.
pub(crate) fn put_vectors(out: &mut Vec<u8>, vectors: &[Row]) -> Result<(), NoMemory>
    ensures { OnOk result (out.new.items ≡ out.old.items ++ lines_text (vector_lines vectors.now)) }
{
    for vector in vectors {
        put_row(out, b"vector", vector.as_slice())?;
    }
    Ok(())
}

/// Appends the lines of the vectors, and the one of the primitive.
pub(crate) fn put_class(
    out: &mut Vec<u8>,
    vectors: &[Row],
    primitive: &[u8],
) -> Result<(), NoMemory>
    ensures { OnOk result (out.new.items ≡ out.old.items
        ++ lines_text (class_lines vectors.now primitive.now)) }
{
    put_vectors(out, vectors)?;
    put_row(out, b"primitive", primitive)
}
