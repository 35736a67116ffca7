ghost use Rattle.std.specs.Prelude.{◌≡◌, ℕ, ◌+◌, ◌≤◌, ◌<◌, List, Some, None, [], length, slice_get, sum_by};
ghost use Rattle.std.specs.Prelude.{IfOk, OnOk, All};
ghost use Rattle.field_table.specs.Table.{ops_of};
ghost use Rattle.field_table.specs.declared.field.Field.{Field as FieldValue};
ghost use Rattle.sheaf_data.specs.Sheaves.{SheafData};
ghost use Rattle.sheaf_words.specs.declared.query.Command.{Command as CommandValue};
ghost use Rattle.sheaf_words.specs.declared.query.Command.TheVariants.{Change, Ask};
ghost use Rattle.core_machine.specs.Machine.{command_at, IsLegalAndWhole};
ghost use Rattle.core_machine.specs.Solo.{IsSoloOrder};
ghost use Rattle.sheaf_text.specs.Answers.{CanBeServed, IsServable};
ghost use Rattle.sheaf_run.specs.Sessions.{IsSoloAnswer, IsJudged, HasReduction, IsProgress, IsReducedFrom};

use crate::reduction::{push_pairs, reduction};
use coboundary::start_is_cochain_complex;
use dense_blocks::Listed;
use edit_versions::{EditFault, apply};
use field_table::Field;
use query_answers::{Answerer, degree_count};
use sheaf_data::Sheaf;
use sheaf_words::{Command, Edit, Event, Query, Reply, Verdict};
use std::alloc::{AllocError as NoMemory, Global};
use std::marker::Model;

/// A sheaf as its edits have left it, and what has happened up to now.
#[derive(Drop)]
struct Session {
    sheaf: Sheaf<Field>,
    /// The number of the sheaf's version: so many edits were accepted.
    version: u32,
    /// The reduction of the sheaf, which answers questions, once it was asked.
    answerer: Option<Answerer<Field>>,
    events: Vec<Event>,
}

impl Model for Session {
    ghost use Rattle.sheaf_run.specs.Sessions.{Progress, IsKnownReduction};

    ghost Value = { Progress };

    ghost view = { λ s. record { sheaf = s.sheaf; version = s.version; slot = s.answerer; events = s.events.items } };

    ghost invariant = { λ s. IsKnownReduction s.sheaf s.answerer };
}

impl Session {
    /// Nothing has happened yet.
    fn new(alloc: Global, sheaf: Sheaf<Field>) -> Session
        ensures { result ≡ record { sheaf = sheaf; version = 0; slot = None; events = [] } }
    {
        Session {
            sheaf,
            version: 0,
            answerer: None,
            events: Vec::new(alloc),
        }
    }

    /// Makes the edit, or refuses it; gives the verdict. The reduction stays with the version.
    fn edit_verdict(&mut self, alloc: Global, edit: &Edit) -> Result<Verdict, NoMemory>
        requires few { length edit.now.sets ≤ 1000000000 }
        requires room { self.old.version < 4096 }
        ensures judged { IfOk result (λ verdict. IsJudged self.old edit.now verdict self.new) }
        ensures complex { IfOk result (λ _. self.new.sheaf.complex ≡ self.old.sheaf.complex) }
        ensures version { self.new.version ≤ self.old.version + 1 }
    {
        match apply(alloc, &mut self.sheaf, edit) {
            Ok(()) => {
                self.version += 1;
                self.answerer = None;
                Ok(Verdict::Accepted)
            }
            Err(EditFault::Refused(cause)) => Ok(Verdict::Refused(cause)),
            Err(EditFault::NoMemory) => Err(NoMemory),
        }
    }

    /// Judges the edit that the client comes to.
    fn judge(&mut self, alloc: Global, client: u32, edit: &Edit) -> Result<(), NoMemory>
        requires few { length edit.now.sets ≤ 1000000000 }
        requires room { self.old.version < 4096 }
        ensures progress { OnOk result ((scripts : List (List CommandValue)) (start : SheafData FieldValue) (i : ℕ)
            → command_at scripts client i ≡ Some (Change edit.now)
            → IsProgress scripts start client i self.old → IsProgress scripts start client (i + 1) self.new) }
        ensures complex { OnOk result (self.new.sheaf.complex ≡ self.old.sheaf.complex) }
        ensures version { self.new.version ≤ self.old.version + 1 }
    {
        let verdict = self.edit_verdict(alloc, edit)?;
        self.events.push(Event::Edit { c: client, verdict })?;
        Ok(())
    }

    /// Reduces the version that stands, unless it was done before; each pair is an event.
    fn reduce(&mut self, alloc: Global) -> Result<(), NoMemory>
        ensures reduced { OnOk result (IsReducedFrom self.old self.new) }
        ensures known { OnOk result (HasReduction self.new) }
        ensures complex { OnOk result (self.new.sheaf.complex ≡ self.old.sheaf.complex) }
        ensures version { self.new.version ≡ self.old.version }
    {
        if self.answerer.is_some() {
            return Ok(());
        }
        let slot = reduction(alloc, &self.sheaf)?;
        push_pairs(&mut self.events, self.version, slot.log())?;
        self.answerer = Some(Answerer::new(slot));
        Ok(())
    }

    /// The answer to a question on the version that stands, which was reduced.
    fn reply(&mut self, alloc: Global, query: &Query) -> Result<Reply, NoMemory>
        requires query { CanBeServed self.old.sheaf.complex.dims query.now }
        requires reduced { HasReduction self.old }
        ensures same { self.new ≡ self.old }
        ensures right { IfOk result (IsSoloAnswer self.old query.now) }
    {
        // This call is made for its clauses alone.
        start_is_cochain_complex();
        let degrees = degree_count(self.sheaf.draft().complex.dims()) as u8;
        let Some(answerer) = &mut self.answerer else {
            unreachable!()
        };
        answerer.reply(alloc, degrees, query)
    }

    /// Asks the question that the client comes to, and answers it.
    fn answer(&mut self, alloc: Global, client: u32, query: &Query) -> Result<(), NoMemory>
        requires { CanBeServed self.old.sheaf.complex.dims query.now }
        ensures progress { OnOk result ((scripts : List (List CommandValue)) (start : SheafData FieldValue) (i : ℕ)
            → command_at scripts client i ≡ Some (Ask query.now)
            → IsProgress scripts start client i self.old → IsProgress scripts start client (i + 1) self.new) }
        ensures complex { OnOk result (self.new.sheaf.complex ≡ self.old.sheaf.complex) }
        ensures version { self.new.version ≡ self.old.version }
    {
        self.events.push(Event::Ask { c: client })?;
        self.reduce(alloc)?;
        let r = self.reply(alloc, query)?;
        self.events.push(Event::Reply { c: client, r })?;
        Ok(())
    }

    /// Serves the command that the client comes to.
    fn serve(&mut self, alloc: Global, client: u32, command: &Command) -> Result<(), NoMemory>
        requires command { IsServable self.old.sheaf.complex.dims 1000000000 command.now }
        requires room { self.old.version < 4096 }
        ensures progress { OnOk result ((scripts : List (List CommandValue)) (start : SheafData FieldValue) (i : ℕ)
            → command_at scripts client i ≡ Some command.now
            → IsProgress scripts start client i self.old → IsProgress scripts start client (i + 1) self.new) }
        ensures complex { OnOk result (self.new.sheaf.complex ≡ self.old.sheaf.complex) }
        ensures version { self.new.version ≤ self.old.version + 1 }
    {
        match command {
            Command::Change(edit) => self.judge(alloc, client, edit),
            Command::Ask(query) => self.answer(alloc, client, query),
        }
    }

    /// Serves all commands of the client, in order.
    fn serve_all(&mut self, alloc: Global, client: u32, script: &[Command]) -> Result<(), NoMemory>
        requires commands { All (IsServable self.old.sheaf.complex.dims 1000000000) script.now }
        requires room { self.old.version + length script.now ≤ 4096 }
        ensures progress { OnOk result ((scripts : List (List CommandValue)) (start : SheafData FieldValue)
            → slice_get scripts client ≡ Some script.now
            → IsProgress scripts start client 0 self.old → IsProgress scripts start (client + 1) 0 self.new) }
        ensures complex { OnOk result (self.new.sheaf.complex ≡ self.old.sheaf.complex) }
        ensures version { OnOk result (self.new.version ≤ self.old.version + length script.now) }
    {
        for command in script {
            self.serve(alloc, client, command)?;
        }
        Ok(())
    }

    /// What has happened.
    fn into_events(self) -> Vec<Event>
        ensures { result.items ≡ self.events }
    {
        self.events
    }
}

/// What happens where the clients with these scripts are served one after the other, each command to its end, on one
/// sheaf that their edits change.
pub fn session_events(
    alloc: Global,
    sheaf: Sheaf<Field>,
    scripts: &[Listed<Command>],
) -> Result<Vec<Event>, NoMemory>
    requires few { length scripts.now ≤ 8 }
    requires commands { sum_by length scripts.now ≤ 4096 }
    requires served { All (All (IsServable sheaf.complex.dims 1000000000)) scripts.now }
    ensures legal { IfOk result (λ events. IsLegalAndWhole (ops_of sheaf.field) scripts.now sheaf events.items) }
    ensures solo { IfOk result (λ events. IsSoloOrder (ops_of sheaf.field) scripts.now sheaf events.items) }
{
    let mut session = Session::new(alloc, sheaf);
    let mut client = 0u32;
    for script in scripts {
        session.serve_all(alloc, client, script.as_slice())?;
        client += 1;
    }
    Ok(session.into_events())
}
