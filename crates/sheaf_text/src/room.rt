ghost use Rattle.std.specs.Prelude.{◌≡◌, ℕ, ◌+◌, ◌*◌, nat_lt, min, if◌then◌else◌, sum, sum_by};
ghost use Rattle.sheaf_text.specs.Parts.{AreDraftParts};
ghost use Rattle.sheaf_text.specs.Rooms.{is_large, large_replies, set_coordinates, new_coordinates, room};
ghost use Rattle.sheaf_text.specs.Needs.{AreNeeds};
ghost use Rattle.sheaf_text.specs.State.{scripts_at};

use crate::line::Stage;
use crate::state::State;
use dense_blocks::Listed;
use sheaf_words::{Command, Query, Set};

/// All stalks together have no more coordinates.
const MOST_COORDINATES: u32 = 4096;

/// The most room for the replies.
const MOST_ROOM: u64 = 1_073_741_824;

/// What the replies to some commands may need.
#[derive(Clone, Copy)]
pub(crate) struct Needs {
    /// How many of them may be large; at most the largest number there is.
    pub(crate) replies: u32,
    /// How many coordinates all stalks together may come to have; at most `MOST_COORDINATES`.
    pub(crate) coordinates: u32,
}

/// Whether the reply may be large.
fn is_large(query: &Query) -> bool
    ensures { result ≡ is_large query.now }
{
    match query {
        Query::Betti => false,
        Query::Reduce
        | Query::Equiv
        | Query::Basis { .. }
        | Query::Class { .. }
        | Query::Sections
        | Query::Extend { .. } => true,
    }
}

impl Needs {
    /// After a change.
    fn after_set(self, set: &Set) -> Needs
        ensures { (n k : ℕ) → AreNeeds n k self → AreNeeds n (k + set_coordinates set.now) result }
    {
        let more = match set {
            Set::Stalk { n, .. } => *n,
            Set::Restrict { .. } => 0,
        };
        Needs {
            replies: self.replies,
            coordinates: self.coordinates.saturating_add(more).min(MOST_COORDINATES),
        }
    }

    /// After several.
    fn after_sets(self, sets: &[Set]) -> Needs
        ensures { (n k : ℕ) → AreNeeds n k self → AreNeeds n (k + sum_by set_coordinates sets.now) result }
    {
        let mut needs = self;
        for set in sets {
            needs = needs.after_set(set);
        }
        needs
    }

    /// After a reply.
    fn after_reply(self, is_large: bool) -> Needs
        ensures { (n k : ℕ) → AreNeeds n k self → AreNeeds (n + (if is_large then 1 else 0)) k result }
    {
        Needs {
            replies: self.replies.saturating_add(u32::from(is_large)),
            coordinates: self.coordinates,
        }
    }

    /// After a command.
    fn after_command(self, command: &Command) -> Needs
        ensures { (n k : ℕ) → AreNeeds n k self
            → AreNeeds (n + large_replies command.now) (k + new_coordinates command.now) result }
    {
        match command {
            Command::Change(edit) => self.after_sets(edit.sets.as_slice()),
            Command::Ask(query) => self.after_reply(is_large(query)),
        }
    }

    /// After the commands of a client.
    fn after_script(self, script: &[Command]) -> Needs
        ensures { (n k : ℕ) → AreNeeds n k self
            → AreNeeds (n + sum_by large_replies script.now) (k + sum_by new_coordinates script.now) result }
    {
        let mut needs = self;
        for command in script {
            needs = needs.after_command(command);
        }
        needs
    }

    /// After the commands of several clients.
    fn after_scripts(self, scripts: &[Listed<Command>]) -> Needs
        ensures { (n k : ℕ) → AreNeeds n k self
            → AreNeeds (n + sum_by (sum_by large_replies) scripts.now) (k + sum_by (sum_by new_coordinates) scripts.now)
            result }
    {
        let mut needs = self;
        for script in scripts {
            needs = needs.after_script(script.as_slice());
        }
        needs
    }

    /// Whether the room is above the most.
    fn are_too_many(self) -> bool
        ensures { (n k : ℕ) → AreNeeds n k self → result ≡ nat_lt 1073741824 (n * (min k 4096 * min k 4096)) }
    {
        let entries = u64::from(self.coordinates) * u64::from(self.coordinates);
        u64::from(self.replies).saturating_mul(entries) > MOST_ROOM
    }
}

/// What the commands so far may need.
fn state_needs(state: &State) -> Needs
    requires { AreDraftParts state.now.parts }
    ensures { AreNeeds (sum_by (sum_by large_replies) (scripts_at state.now.stage state.now.scripts))
        (sum state.now.parts.stalks.items
        + sum_by (sum_by new_coordinates) (scripts_at state.now.stage state.now.scripts)) result }
{
    let start = Needs {
        replies: 0,
        coordinates: state.parts.total.min(MOST_COORDINATES),
    };
    let ended = start.after_scripts(&state.scripts.ended);
    match state.stage {
        Stage::InClient => ended.after_script(&state.scripts.commands),
        Stage::InEdit => ended
            .after_script(&state.scripts.commands)
            .after_sets(&state.scripts.sets),
        _ => ended,
    }
}

/// Whether the replies to the commands so far may need too much room.
pub(crate) fn is_too_large(state: &State) -> bool
    requires { AreDraftParts state.now.parts }
    ensures { result ≡ nat_lt 1073741824
        (room state.now.parts.stalks.items (scripts_at state.now.stage state.now.scripts)) }
{
    state_needs(state).are_too_many()
}
