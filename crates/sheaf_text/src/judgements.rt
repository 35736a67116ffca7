ghost use Rattle.std.specs.Prelude.{◌≡◌, length, IfOk, IfErr};
ghost use Rattle.sheaf_text.specs.Parts.{AreDraftParts, IsClosed};
ghost use Rattle.sheaf_text.specs.Grammar.{is_ended, cause_of, entries_refusal, face_refusal, kind_refusal};
ghost use Rattle.sheaf_text.specs.Grammar.{degree_refusal, vertex_refusal, placed_refusal};
ghost use Rattle.sheaf_text.specs.Forms.{is_full, field_refusal, client_refusal, command_refusal, content_refusal};
ghost use Rattle.sheaf_text.specs.Forms.{room_refusal};
ghost use Rattle.sheaf_text.specs.State.{known_by, scripts_at, IsSoundState, IsReadyFor, IsFound};

use crate::fault::{LineCause, Refusal, Which};
use crate::heads::LineWords;
use crate::line::{Kind, Stage, are_numerals, count_fits, face_of, is_sign, may_stand};
use crate::parts::stalk_of;
use crate::room::is_too_large;
use crate::state::State;
use cell_complex::{Face, FaceFault};
use dense_blocks::Scalars;
use field_table::Field;

const HIGHEST: u32 = 15;

const MOST_OF_A_STALK: u32 = 16;

const MOST_CELLS: usize = 4096;

const MOST_OF_ALL: u32 = 4096;

const MOST_FACES: u32 = 32_768;

const MOST_CLIENTS: usize = 8;

const MOST_COMMANDS: u32 = 4096;

fn field_refusal(line: &LineWords<'_>) -> Option<Refusal>
    ensures { result ≡ field_refusal line.now }
{
    match Field::of(line.s_value()) {
        Some(_) => None,
        None => Some(Refusal::Bad(LineCause::Field)),
    }
}

fn cell_refusal(state: &State, line: &LineWords<'_>) -> Option<Refusal>
    requires { AreDraftParts state.now.parts }
    ensures { result ≡ kind_refusal (known_by state.now) Kind.Cell line.now }
{
    let stalk = line.t_value();
    if line.s_value() > HIGHEST {
        Some(Refusal::Over(Which::Dimension))
    } else if stalk > MOST_OF_A_STALK {
        Some(Refusal::Over(Which::Stalk))
    } else if state.parts.dims.len() >= MOST_CELLS {
        Some(Refusal::Over(Which::Cells))
    } else if state.parts.total + stalk > MOST_OF_ALL {
        Some(Refusal::Over(Which::Total))
    } else {
        None
    }
}

fn cause_of(fault: FaceFault) -> LineCause
    ensures { result ≡ cause_of fault }
{
    match fault {
        FaceFault::UnknownCell { id: _ } => LineCause::Cell,
        FaceFault::WrongDims { s: _, t: _ } => LineCause::Dims,
        FaceFault::TwiceFace { s: _, t: _ } => LineCause::Twice,
    }
}

fn is_full(stalks: &[u8], face: Face, count: usize) -> bool
    ensures { result ≡ is_full stalks.now face count }
{
    count == stalk_of(stalks, face.t) as usize * stalk_of(stalks, face.s) as usize
}

fn entries_refusal(state: &State, line: &LineWords<'_>) -> Option<Refusal>
    ensures { result ≡ entries_refusal (known_by state.now) line.now }
{
    let entries = line.entries();
    if !is_full(&state.parts.stalks, face_of(line), entries.count()) {
        Some(Refusal::Bad(LineCause::Shape))
    } else if !entries.are_below(state.parts.field.order()) {
        Some(Refusal::Bad(LineCause::Entry))
    } else if state.parts.complex.face_count() >= MOST_FACES {
        Some(Refusal::Over(Which::Faces))
    } else {
        None
    }
}

fn face_refusal(state: &State, line: &LineWords<'_>) -> Option<Refusal>
    requires { IsClosed state.now.parts }
    ensures { result ≡ face_refusal (known_by state.now) line.now }
{
    if !is_sign(line.sign()) {
        return Some(Refusal::Bad(LineCause::Sign));
    }
    match state.parts.complex.fault_of(face_of(line)) {
        Some(fault) => Some(Refusal::Bad(cause_of(fault))),
        None => entries_refusal(state, line),
    }
}

fn client_count(state: &State) -> usize
    ensures { result ≡ length (scripts_at state.now.stage state.now.scripts) }
{
    let ended = state.scripts.ended.len();
    match state.stage {
        Stage::InClient | Stage::InEdit => ended + 1,
        _ => ended,
    }
}

fn client_refusal(state: &State) -> Option<Refusal>
    ensures { result ≡ client_refusal (known_by state.now) }
{
    if client_count(state) >= MOST_CLIENTS {
        Some(Refusal::Over(Which::Clients))
    } else {
        None
    }
}

fn command_refusal(state: &State) -> Option<Refusal>
    ensures { result ≡ command_refusal (known_by state.now) }
{
    if state.scripts.count >= MOST_COMMANDS {
        Some(Refusal::Over(Which::Commands))
    } else {
        None
    }
}

fn degree_refusal(state: &State, line: &LineWords<'_>) -> Option<Refusal>
    ensures { result ≡ degree_refusal (known_by state.now) line.now }
{
    let degree = line.s_value();
    if degree > HIGHEST {
        Some(Refusal::Over(Which::Dimension))
    } else {
        command_refusal(state)
    }
}

fn vertex_refusal(state: &State, line: &LineWords<'_>) -> Option<Refusal>
    ensures { result ≡ vertex_refusal (known_by state.now) line.now }
{
    let dims = state.parts.dims.as_slice();
    let s = line.s_value() as usize;
    if s >= dims.len() {
        Some(Refusal::Bad(LineCause::Cell))
    } else if dims[s] != 0 {
        Some(Refusal::Bad(LineCause::Vertex))
    } else {
        command_refusal(state)
    }
}

fn room_refusal(state: &State) -> Option<Refusal>
    requires { AreDraftParts state.now.parts }
    ensures { result ≡ room_refusal (known_by state.now) }
{
    if is_too_large(state) {
        Some(Refusal::Over(Which::Room))
    } else {
        None
    }
}

fn kind_refusal(state: &State, kind: Kind, line: &LineWords<'_>) -> Option<Refusal>
    requires sound { IsSoundState state.now }
    requires ready { IsReadyFor (Some kind) state.now.parts }
    ensures { result ≡ kind_refusal (known_by state.now) kind line.now }
{
    match kind {
        Kind::Field => field_refusal(line),
        Kind::Cell => cell_refusal(state, line),
        Kind::Face => face_refusal(state, line),
        Kind::Client => client_refusal(state),
        Kind::Betti | Kind::Reduce | Kind::Equiv | Kind::Sections | Kind::Edit => {
            command_refusal(state)
        }
        Kind::Basis | Kind::Class => degree_refusal(state, line),
        Kind::Extend => vertex_refusal(state, line),
        Kind::Stalk | Kind::Restrict | Kind::Commit => None,
        Kind::Done => room_refusal(state),
    }
}

fn placed_refusal(state: &State, kind: Kind, line: &LineWords<'_>) -> Option<Refusal>
    requires sound { IsSoundState state.now }
    requires ready { IsReadyFor (Some kind) state.now.parts }
    ensures { result ≡ placed_refusal (known_by state.now) kind line.now }
{
    if !may_stand(state.stage, kind) {
        Some(Refusal::Bad(LineCause::Word))
    } else if !count_fits(kind, line.count()) {
        Some(Refusal::Bad(LineCause::Count))
    } else if !are_numerals(kind, line) {
        Some(Refusal::Bad(LineCause::Number))
    } else {
        kind_refusal(state, kind, line)
    }
}

/// Whether the line `done` has come.
pub(crate) fn is_ended(stage: Stage) -> bool
    ensures { result ≡ is_ended stage }
{
    matches!(stage, Stage::Ended)
}

/// The kind of a line that is not skipped, or why it is refused.
pub(crate) fn judged(
    state: &State,
    kind: Option<Kind>,
    line: &LineWords<'_>,
) -> Result<Kind, Refusal>
    requires sound { IsSoundState state.now }
    requires ready { IsReadyFor kind state.now.parts }
    ensures ok { IfOk result (λ found. IsFound (known_by state.now) kind line.now found) }
    ensures err { IfErr result (λ refusal. content_refusal (known_by state.now) kind line.now ≡ Some refusal) }
{
    if is_ended(state.stage) {
        return Err(Refusal::Bad(LineCause::After));
    }
    let Some(kind) = kind else {
        return Err(Refusal::Bad(LineCause::Word));
    };
    match placed_refusal(state, kind, line) {
        Some(refusal) => Err(refusal),
        None => Ok(kind),
    }
}
