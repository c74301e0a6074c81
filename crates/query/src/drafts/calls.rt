// The calls that put a draft together. A refused call changes nothing.
ghost use Rattle.std.specs.Prelude.{◌≡◌, [], ◌∷◌, is_ok, IfOk, if◌then◌else◌};
ghost use Rattle.basis.specs.Questions.{first_no, answered};
ghost use Rattle.cells.specs.Headings.{columns};
ghost use Rattle.query.specs.Queries.{Query};
ghost use Rattle.query.specs.Questions.{refusal_number, table_questions, with_table, join_questions, with_join};

use crate::columns::column_kind;
use crate::drafts::Draft;
use crate::types::{Join, Refusal};
use cells::headings::Heading;
use expressions::types::Column;
use std::alloc::{AllocError, Global};

impl Draft {
    // A draft with one table.
    pub fn new(heap: Global, first: Heading) -> Result<Draft, AllocError>
        ensures value { IfOk result (λ d. d ≡ record { headings = columns first ∷ []; joins = []; filters = []; shown = [] }) }
    {
        let mut headings = Vec::with_capacity(heap, 6)?;
        let joins = Vec::with_capacity(heap, 10)?;
        let filters = Vec::with_capacity(heap, 8)?;
        let shown = Vec::with_capacity(heap, 6)?;
        headings.push_reserved(first);
        Ok(Draft {
            heap,
            headings,
            joins,
            filters,
            shown,
        })
    }

    // Asks the questions of a new table.
    fn ask_table(&self, heading: &Heading, to: Column, own: usize) -> Result<(), Refusal>
        ensures answer { answered refusal_number result ≡ first_no (table_questions self.now (columns heading.now) to own) }
    {
        if self.tables() >= 6 {
            return Err(Refusal::SeventhTable);
        }
        let (Some(there), Some(here)) = (column_kind(&self.headings, to), heading.kind(own)) else {
            return Err(Refusal::NoSuchColumn);
        };
        if there != here {
            return Err(Refusal::KindsDiffer);
        }
        if self.joins.len() >= 10 {
            return Err(Refusal::EleventhJoin);
        }
        Ok(())
    }

    // By hand: `to` and `own` are no join yet, since the table that `own` is of has no number before it is added.
    // One more table, whose column `own` equals the column `to` of an earlier one.
    pub fn add_table(&mut self, heading: Heading, to: Column, own: usize) -> Result<(), Refusal>
        ensures answer { answered refusal_number result ≡ first_no (table_questions self.old (columns heading) to own) }
        ensures after { self.new ≡ (if is_ok result then with_table self.old (columns heading) to own else self.old) }
    {
        self.ask_table(&heading, to, own)?;
        self.push_table(heading, to, own);
        Ok(())
    }

    // Asks the questions of a further join.
    fn ask_join(&self, join: Join) -> Result<(), Refusal>
        ensures answer { answered refusal_number result ≡ first_no (join_questions self.now join) }
    {
        let left = column_kind(&self.headings, join.left);
        let right = column_kind(&self.headings, join.right);
        if left.is_none() || right.is_none() {
            return Err(Refusal::NoSuchColumn);
        }
        if join.left.table == join.right.table {
            return Err(Refusal::SameTable);
        }
        if left != right {
            return Err(Refusal::KindsDiffer);
        }
        if self.joins.len() >= 10 {
            return Err(Refusal::EleventhJoin);
        }
        Ok(())
    }

    // One more join.
    pub fn add_join(&mut self, join: Join) -> Result<(), Refusal>
        ensures answer { answered refusal_number result ≡ first_no (join_questions self.old join) }
        ensures after { self.new ≡ (if is_ok result then with_join self.old join else self.old) }
    {
        self.ask_join(join)?;
        self.push_join(join);
        Ok(())
    }
}
