ghost use Rattle.std.specs.Prelude.{◌≡◌, IfOk};

use crate::edit::Verdict;
use crate::reply::Reply;
use std::alloc::{AllocError as NoMemory, Global};

/// What happened, one step of a run.
#[derive(Debug, Drop)]
pub enum Event {
    /// An edit of the client `c` was judged.
    Edit { c: u32, verdict: Verdict },
    /// The client `c` asked.
    Ask { c: u32 },
    /// On the version `v` of the sheaf the pair of cells `x` and `y` was removed.
    Pair { v: u32, x: u32, y: u32 },
    /// The client `c` was answered.
    Reply { c: u32, r: Reply },
}

impl Event {
    /// An equal value.
    pub fn copy(&self, alloc: Global) -> Result<Self, NoMemory>
        ensures { IfOk result (λ copy. copy ≡ self.now) }
    {
        match self {
            Event::Edit { c, verdict } => Ok(Event::Edit {
                c: *c,
                verdict: *verdict,
            }),
            Event::Ask { c } => Ok(Event::Ask { c: *c }),
            Event::Pair { v, x, y } => Ok(Event::Pair {
                v: *v,
                x: *x,
                y: *y,
            }),
            Event::Reply { c, r } => Ok(Event::Reply {
                c: *c,
                r: r.copy(alloc)?,
            }),
        }
    }
}
