//! Texts at the limits that are too large for a row.
use sheaf_text::TextFault::Limit;
use sheaf_text::Which::{Bytes, Faces};
use sheaf_text::{MOST_BYTES, TextFault, read};
use std::alloc::{AllocError as NoMemory, Global};
use std::test::Fail;

fn repeat(text: &mut Vec<u8>, line: &str, count: usize) -> Result<(), NoMemory> {
    for _ in 0..count {
        text.extend_from_slice(line.as_bytes())?;
    }
    Ok(())
}

/// Adds one face more than an input may have: all of the first 16 of 17 vertices and 2,048 edges, and one.
fn add_faces(alloc: Global, text: &mut Vec<u8>) -> Result<(), NoMemory> {
    for face in 0..32_769 {
        let (s, t) = (face / 2048, 17 + face % 2048);
        let line = format!(in alloc; "face {s} {t} +\n")?;
        text.extend_from_slice(line.as_bytes())?;
    }
    Ok(())
}

fn fault(alloc: Global, text: &[u8]) -> Option<TextFault> {
    read(alloc, text).err()
}

#[test]
fn reads_32768_faces(rt: HostRuntime) -> Result<(), Fail> {
    let mut text = Vec::from_slice(rt.alloc(), b"field 2\n")?;
    repeat(&mut text, "cell 0 0\n", 17)?;
    repeat(&mut text, "cell 1 0\n", 2048)?;
    add_faces(rt.alloc(), &mut text)?;
    let over = Limit {
        line: 34_835,
        which: Faces,
    };
    assert!(rt; fault(rt.alloc(), &text) == Some(over));
    Ok(())
}

#[test]
fn reads_16777216_bytes(rt: HostRuntime) -> Result<(), Fail> {
    let text = vec![in rt.alloc(); b' '; MOST_BYTES + 1]?;
    let over = Limit {
        line: 0,
        which: Bytes,
    };
    assert!(rt; fault(rt.alloc(), &text) == Some(over));
    Ok(())
}
