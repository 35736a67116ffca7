ghost use Rattle.std.specs.Prelude.{◌≡◌, ◌-◌, ◌^◌, ◌<◌, true, false, drop, map, IfOk, IfErr, OnOk};
ghost use Rattle.sheaf_text.specs.Cut.{words, value_of};
ghost use Rattle.sheaf_text.specs.Lines.{is_skipped};
ghost use Rattle.sheaf_text.specs.Answers.{Gives, GivesFault};
ghost use Rattle.sheaf_text.specs.Readings.{RefusedLine};
ghost use Rattle.sheaf_text.specs.Forms.{is_query_kind, query_of, HasDegree, set_of, is_set_kind, reading_at_end};
ghost use Rattle.sheaf_text.specs.State.{known_by, IsSoundState, IsReady, IsAccepted, IsUntouched, TakesKind};
ghost use Rattle.sheaf_text.specs.State.{TakesLine, RefusesLine};

use crate::cut::next_word;
use crate::fault::{LineCause, Refusal, TextFault};
use crate::heads::LineWords;
use crate::input::Input;
use crate::judgements::{is_ended, judged};
use crate::line::{Kind, Stage, is_skipped, kind_of};
use crate::parts::Parts;
use crate::scripts::Scripts;
use crate::words::{after_words, values};
use dense_blocks::Listed;
use sheaf_words::{Numbers, Query, Set};
use std::alloc::{AllocError as NoMemory, Global};

/// What is kept from line to line.
#[derive(Drop)]
pub(crate) struct State {
    pub stage: Stage,
    pub parts: Parts,
    pub scripts: Scripts,
}

/// The numbers of a line from the place 2 on.
fn numbers_of(alloc: Global, line: &LineWords<'_>) -> Result<Numbers, NoMemory>
    ensures { IfOk result (λ numbers. numbers ≡ map value_of (drop 2 line.now)) }
{
    let numbers = values(alloc, after_words(line.after(), 1))?;
    Ok(Listed::of(numbers))
}

/// The question of a line.
fn query_of(alloc: Global, kind: Kind, line: &LineWords<'_>) -> Result<Query, NoMemory>
    requires { HasDegree kind line.now }
    ensures { IfOk result (λ query. query ≡ query_of kind line.now) }
{
    match kind {
        Kind::Reduce => Ok(Query::Reduce),
        Kind::Equiv => Ok(Query::Equiv),
        Kind::Basis => Ok(Query::Basis {
            k: line.s_value() as u8,
        }),
        Kind::Class => Ok(Query::Class {
            k: line.s_value() as u8,
            z: numbers_of(alloc, line)?,
        }),
        Kind::Sections => Ok(Query::Sections),
        Kind::Extend => Ok(Query::Extend {
            s: line.s_value(),
            v: numbers_of(alloc, line)?,
        }),
        _ => Ok(Query::Betti),
    }
}

/// The change of a line.
fn set_of(alloc: Global, kind: Kind, line: &LineWords<'_>) -> Result<Set, NoMemory>
    ensures { IfOk result (λ set. set ≡ set_of kind line.now) }
{
    let s = line.s_value();
    match kind {
        Kind::Restrict => {
            let entries = values(alloc, after_words(line.after(), 2))?;
            Ok(Set::Restrict {
                s,
                t: line.t_value(),
                entries: Listed::of(entries),
            })
        }
        _ => Ok(Set::Stalk {
            s,
            n: line.t_value(),
        }),
    }
}

impl State {
    /// Before any line.
    pub fn new(alloc: Global) -> Result<State, NoMemory>
        ensures { IfOk result IsUntouched }
    {
        Ok(State {
            stage: Stage::Start,
            parts: Parts::new(alloc)?,
            scripts: Scripts::new(alloc),
        })
    }

    /// Gives the complex its cells before the first line that is none of a cell.
    fn ready(&mut self, alloc: Global, kind: Option<Kind>) -> Result<(), NoMemory>
        requires { IsSoundState self.old }
        ensures { OnOk result (IsReady self.old self.new kind) }
    {
        match (self.stage, kind) {
            (Stage::Cells, Some(Kind::Cell)) => Ok(()),
            (Stage::Cells, _) => self.parts.close(alloc),
            _ => Ok(()),
        }
    }

    fn take_field(&mut self, line: &LineWords<'_>)
        requires { IsAccepted self.old Kind.Field line.now }
        ensures { TakesKind self.old self.new Kind.Field line.now }
    {
        self.parts.set_field(line.s_value());
        self.stage = Stage::Cells;
    }

    fn take_cell(&mut self, line: &LineWords<'_>) -> Result<(), NoMemory>
        requires { IsAccepted self.old Kind.Cell line.now }
        ensures { OnOk result (TakesKind self.old self.new Kind.Cell line.now) }
    {
        self.parts.add_cell(line.s_value(), line.t_value())?;
        self.stage = Stage::Cells;
        Ok(())
    }

    fn take_face(&mut self, alloc: Global, line: &LineWords<'_>) -> Result<(), NoMemory>
        requires { IsAccepted self.old Kind.Face line.now }
        ensures { OnOk result (TakesKind self.old self.new Kind.Face line.now) }
    {
        self.parts.add_face(alloc, line)?;
        self.stage = Stage::Faces;
        Ok(())
    }

    fn take_client(&mut self, alloc: Global, line: &LineWords<'_>) -> Result<(), NoMemory>
        requires { IsAccepted self.old Kind.Client line.now }
        ensures { OnOk result (TakesKind self.old self.new Kind.Client line.now) }
    {
        let is_open = self.stage == Stage::InClient;
        self.scripts.end_script(alloc, is_open)?;
        self.stage = Stage::InClient;
        Ok(())
    }

    fn take_query(
        &mut self,
        alloc: Global,
        kind: Kind,
        line: &LineWords<'_>,
    ) -> Result<(), NoMemory>
        requires accepted { IsAccepted self.old kind line.now }
        requires query { is_query_kind kind ≡ true }
        ensures { OnOk result (TakesKind self.old self.new kind line.now) }
    {
        let query = query_of(alloc, kind, line)?;
        self.scripts.add_query(query)?;
        Ok(())
    }

    fn take_edit(&mut self, alloc: Global, line: &LineWords<'_>)
        requires { IsAccepted self.old Kind.Edit line.now }
        ensures { TakesKind self.old self.new Kind.Edit line.now }
    {
        self.scripts.open_edit(alloc);
        self.stage = Stage::InEdit;
    }

    fn take_set(&mut self, alloc: Global, kind: Kind, line: &LineWords<'_>) -> Result<(), NoMemory>
        requires accepted { IsAccepted self.old kind line.now }
        requires set { is_set_kind kind ≡ true }
        ensures { OnOk result (TakesKind self.old self.new kind line.now) }
    {
        let set = set_of(alloc, kind, line)?;
        self.scripts.add_set(set)?;
        Ok(())
    }

    fn take_commit(&mut self, alloc: Global, line: &LineWords<'_>) -> Result<(), NoMemory>
        requires { IsAccepted self.old Kind.Commit line.now }
        ensures { OnOk result (TakesKind self.old self.new Kind.Commit line.now) }
    {
        self.scripts.close_edit(alloc)?;
        self.stage = Stage::InClient;
        Ok(())
    }

    fn take_done(&mut self, alloc: Global, line: &LineWords<'_>) -> Result<(), NoMemory>
        requires { IsAccepted self.old Kind.Done line.now }
        ensures { OnOk result (TakesKind self.old self.new Kind.Done line.now) }
    {
        let is_open = self.stage == Stage::InClient;
        self.scripts.end_script(alloc, is_open)?;
        self.stage = Stage::Ended;
        Ok(())
    }

    /// Takes a line that is not refused.
    fn take_kind(&mut self, alloc: Global, kind: Kind, line: &LineWords<'_>) -> Result<(), NoMemory>
        requires { IsAccepted self.old kind line.now }
        ensures { OnOk result (TakesKind self.old self.new kind line.now) }
    {
        match kind {
            Kind::Field => {
                self.take_field(line);
                Ok(())
            }
            Kind::Cell => self.take_cell(line),
            Kind::Face => self.take_face(alloc, line),
            Kind::Client => self.take_client(alloc, line),
            Kind::Betti => self.take_query(alloc, Kind::Betti, line),
            Kind::Reduce => self.take_query(alloc, Kind::Reduce, line),
            Kind::Equiv => self.take_query(alloc, Kind::Equiv, line),
            Kind::Basis => self.take_query(alloc, Kind::Basis, line),
            Kind::Class => self.take_query(alloc, Kind::Class, line),
            Kind::Sections => self.take_query(alloc, Kind::Sections, line),
            Kind::Extend => self.take_query(alloc, Kind::Extend, line),
            Kind::Edit => {
                self.take_edit(alloc, line);
                Ok(())
            }
            Kind::Stalk => self.take_set(alloc, Kind::Stalk, line),
            Kind::Restrict => self.take_set(alloc, Kind::Restrict, line),
            Kind::Commit => self.take_commit(alloc, line),
            Kind::Done => self.take_done(alloc, line),
        }
    }

    /// Takes a line that is not skipped.
    fn take_content(
        &mut self,
        alloc: Global,
        number: u32,
        line: &LineWords<'_>,
    ) -> Result<(), TextFault>
        requires sound { IsSoundState self.old }
        requires content { is_skipped line.now ≡ false }
        ensures ok { OnOk result (TakesLine self.old self.new line.now) }
        ensures err { IfErr result (RefusesLine self.old number line.now) }
    {
        let kind = kind_of(line.first());
        self.ready(alloc, kind)?;
        match judged(self, kind, line) {
            Ok(kind) => {
                self.take_kind(alloc, kind, line)?;
                Ok(())
            }
            Err(refusal) => Err(fault_at(refusal, number)),
        }
    }

    /// Takes a line.
    pub fn take(&mut self, alloc: Global, number: u32, text: &[u8]) -> Result<(), TextFault>
        requires { IsSoundState self.old }
        ensures ok { OnOk result (TakesLine self.old self.new (words text.now)) }
        ensures err { IfErr result (RefusesLine self.old number (words text.now)) }
    {
        let Some((first, after)) = next_word(text) else {
            return Ok(());
        };
        if is_skipped(first) {
            return Ok(());
        }
        self.take_content(alloc, number, &LineWords::of(first, after))
    }

    /// The input, at the end of its lines.
    pub fn finish(self, line: u32) -> Result<Input, TextFault>
        requires sound { IsSoundState self }
        requires line { line < 2 ^ 32 - 1 }
        ensures { Gives result (reading_at_end (known_by self) line) }
    {
        if !is_ended(self.stage) {
            return Err(TextFault::BadLine {
                line: line + 1,
                cause: LineCause::End,
            });
        }
        Ok(Input {
            draft: self.parts.into_draft(),
            scripts: Listed::of(self.scripts.ended),
        })
    }
}

/// The fault of a refused line.
fn fault_at(refusal: Refusal, line: u32) -> TextFault
    ensures { GivesFault result (RefusedLine line refusal) }
{
    match refusal {
        Refusal::Bad(cause) => TextFault::BadLine { line, cause },
        Refusal::Over(which) => TextFault::Limit { line, which },
    }
}
