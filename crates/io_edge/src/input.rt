ghost use Rattle.std.specs.Prelude.{◌≡◌, ℕ, ◌<◌, ◌≤◌, List, length, IfOk, IfSome, OnOk, IsErrOf};
ghost use Rattle.std.specs.Io.KnownBytes.{IsAtEnd};
ghost use Rattle.io_edge.specs.Faults.{Rose};
ghost use Rattle.io_edge.specs.Input.{Gave, ReadUpTo};
ghost use Rattle.io_edge.specs.declared.input.ReadAll.TheVariants.{NoMemory};

use crate::edge::Source;
use std::alloc::{AllocError as NoMemory, Global};
use thiserror::Error;

/// Why not all bytes of a source were read.
#[derive(Clone, Copy, Debug, PartialEq, Eq, Error)]
pub enum ReadAll {
    /// A read failed.
    #[error("a read failed")]
    ReadFault,
    /// The source has more bytes than the limit.
    #[error("the input is too long")]
    TooLong,
    /// Memory ran out.
    #[error("out of memory")]
    NoMemory,
}

impl From<NoMemory> for ReadAll {
    ghost from_gives = { λ _ e. e ≡ NoMemory };

    fn from(_: NoMemory) -> Self {
        ReadAll::NoMemory
    }
}

/// How many bytes a read is offered room for, at most.
const BUFFER: usize = 4096;

/// Reads to the end of input, or up to one byte more than the limit.
///
/// # Errors
///
/// `ReadFault` at the first read that fails, `TooLong` once one byte more than the limit was read, and `NoMemory`
/// where there is none for the bytes. What was read then is lost.
#[tactic(auto, using(crate::proofs::Known::gave_whole, crate::proofs::Known::gave_at_least))]
pub fn read_all<S: Source>(alloc: Global, source: &mut S, limit: usize) -> Result<Vec<u8>, ReadAll>
    requires { limit < usize.MAX }

    // Where the source tells its bytes, the answer is all of them, or they are more than the limit.
    ensures whole { IfOk result (λ all. IfSome (S.left source.old) (λ bytes. all.items ≡ bytes)) }
    ensures long { IsErrOf result ReadAll.TooLong → IfSome (S.left source.old) (λ bytes. limit < length bytes) }
    ensures end { OnOk result (IsAtEnd (S.left source.new)) }

    // Whatever comes, the source gave these bytes and no more.
    ensures gave { (bytes : List ℕ) ×
        Gave (S.left source.old) (S.left source.new) bytes × ReadUpTo limit bytes result }

    // The count of faults never falls, and rose where a read failed.
    ensures later { S.fault_count source.old ≤ S.fault_count source.new }
    ensures fault { IsErrOf result ReadAll.ReadFault →
        Rose (S.fault_count source.old) (S.fault_count source.new) }
{
    let mut all = Vec::new(alloc);
    let mut buffer = [0; BUFFER];
    'reads: loop {
        let within = limit - all.len();
        let room = (within + 1).min(BUFFER);
        match source.read(&mut buffer[..room]) {
            Err(_) => return Err(ReadAll::ReadFault),
            Ok(0) => return Ok(all),
            Ok(count) if count > within => return Err(ReadAll::TooLong),
            Ok(count) => all.extend_from_slice(&buffer[..count])?,
        }
    }
}
