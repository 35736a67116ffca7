ghost use Rattle.std.specs.Prelude.{◌<◌, ◌≤◌, OnOk};

use dense_blocks::Listed;
use sheaf_words::{Command, Edit, Query, Set};
use std::alloc::{AllocError as NoMemory, Global};
use std::mem::replace;

/// What the lines so far say of the clients.
#[derive(Drop)]
pub(crate) struct Scripts {
    /// The commands of the clients before the last.
    pub ended: Vec<Listed<Command>>,
    /// The commands of the last client.
    pub commands: Vec<Command>,
    /// The changes of an edit that is open.
    pub sets: Vec<Set>,
    /// How many commands there are in all.
    pub count: u32,
    ghost few: { count ≤ 4096 },
}

impl Scripts {
    ghost use Rattle.sheaf_text.specs.Scripts.{AreNone, EndsScript, AddsQuery, OpensEdit, AddsSet, ClosesEdit};

    /// Before any client.
    pub fn new(alloc: Global) -> Scripts
        ensures { AreNone result }
    {
        Scripts {
            ended: Vec::new(alloc),
            commands: Vec::new(alloc),
            sets: Vec::new(alloc),
            count: 0,
        }
    }

    /// Ends the script of the last client, if there is one.
    pub fn end_script(&mut self, alloc: Global, is_open: bool) -> Result<(), NoMemory>
        ensures { OnOk result (EndsScript self.old self.new is_open) }
    {
        let script = replace(&mut self.commands, Vec::new(alloc));
        if is_open {
            self.ended.push(Listed::of(script))?;
        }
        Ok(())
    }

    /// Adds a question of the last client.
    pub fn add_query(&mut self, query: Query) -> Result<(), NoMemory>
        requires { self.old.count < 4096 }
        ensures { OnOk result (AddsQuery self.old self.new query) }
    {
        self.commands.push(Command::Ask(query))?;
        self.count += 1;
        Ok(())
    }

    /// Opens an edit of the last client.
    pub fn open_edit(&mut self, alloc: Global)
        requires { self.old.count < 4096 }
        ensures { OpensEdit self.old self.new }
    {
        self.sets = Vec::new(alloc);
        self.count += 1;
    }

    /// Adds a change to the open edit.
    pub fn add_set(&mut self, set: Set) -> Result<(), NoMemory>
        ensures { OnOk result (AddsSet self.old self.new set) }
    {
        self.sets.push(set)?;
        Ok(())
    }

    /// Closes the open edit.
    pub fn close_edit(&mut self, alloc: Global) -> Result<(), NoMemory>
        ensures { OnOk result (ClosesEdit self.old self.new) }
    {
        let sets = replace(&mut self.sets, Vec::new(alloc));
        let edit = Edit {
            sets: Listed::of(sets),
        };
        self.commands.push(Command::Change(edit))?;
        Ok(())
    }
}
