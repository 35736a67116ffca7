ghost use Rattle.std.specs.Prelude.{◌≤◌, length, IfOk};
ghost use Rattle.sheaf_text.specs.Answers.{Gives, AreServable};
ghost use Rattle.sheaf_text.specs.Readings.{nothing_known, run, reading};
ghost use Rattle.sheaf_text.specs.Forms.{contents};

use crate::cut::next_line;
use crate::fault::{TextFault, Which};
use crate::input::Input;
use crate::state::State;
use std::alloc::Global;

/// The most bytes of an input.
pub const MOST_BYTES: usize = 16_777_216;

fn read_lines(alloc: Global, bytes: &[u8]) -> Result<Input, TextFault>
    requires { length bytes.now ≤ 16777216 }
    ensures { Gives result (run nothing_known 0 (contents bytes.now)) }
{
    let mut state = State::new(alloc)?;
    let mut line = 0u32;
    let mut rest = bytes;
    while !rest.is_empty() {
        let (text, after) = next_line(rest);
        line += 1;
        match state.take(alloc, line, text) {
            Ok(()) => rest = after,
            Err(fault) => return Err(fault),
        }
    }
    state.finish(line)
}

/// The input that the bytes are: of at most 8 clients, and of at most 4,096 commands in all.
///
/// # Errors
///
/// The first line that is refused, with its first cause; for one line limits come after the causes. More than
/// [`MOST_BYTES`] bytes are refused before any line. `NoMemory` says nothing of the bytes.
pub fn read(alloc: Global, bytes: &[u8]) -> Result<Input, TextFault>
    ensures gives { Gives result (reading bytes.now) }
    ensures few { IfOk result (λ input. AreServable input.draft.complex.dims input.scripts) }
{
    if bytes.len() > MOST_BYTES {
        return Err(TextFault::Limit {
            line: 0,
            which: Which::Bytes,
        });
    }
    read_lines(alloc, bytes)
}
