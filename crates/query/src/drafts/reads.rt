// What a draft tells of its query.
ghost use Rattle.std.specs.Prelude.{◌≡◌, map, length};
ghost use Rattle.basis.specs.Questions.{first_no, answered};
ghost use Rattle.cells.specs.Headings.{columns};
ghost use Rattle.query.specs.Lawful.{Lawful};
ghost use Rattle.query.specs.Queries.{condition, projection};
ghost use Rattle.query.specs.Rows.{row_questions, row_refusal_number};

use crate::drafts::Draft;
use crate::rows::all_fit;
use crate::types::{Filter, Join, RowRefusal, Shown};
use cells::headings::Heading;
use cells::types::Cell;

impl Draft {
    // How many tables. Its law is what every draft keeps to.
    // By hand: of a type seen by a `Model` callers know the value alone, so a reader of what they index by says that it is lawful.
    pub fn tables(&self) -> usize
        ensures value { result ≡ length self.now.headings }
        ensures law { Lawful self.now }
    {
        self.headings.len()
    }

    // The tables' headings, in order.
    pub fn headings(&self) -> &[Heading]
        ensures count { length result.now ≡ length self.now.headings }
        ensures law { Lawful self.now }
        ensures value { map columns result.now ≡ self.now.headings }
    {
        self.headings.as_slice()
    }

    // The joins, in order.
    pub fn joins(&self) -> &[Join]
        ensures law { Lawful self.now }
        ensures value { result.now ≡ self.now.joins }
    {
        self.joins.as_slice()
    }

    // The filters, in order.
    pub fn filters(&self) -> &[Filter]
        ensures law { Lawful self.now }
        ensures value { map condition result.now ≡ self.now.filters }
    {
        self.filters.as_slice()
    }

    // The shown things, in order.
    pub fn shown(&self) -> &[Shown]
        ensures law { Lawful self.now }
        ensures value { map projection result.now ≡ self.now.shown }
    {
        self.shown.as_slice()
    }

    // By hand: a caller has cells and chooses a table for them, so a struct of both would be made for the call alone.
    // May these cells be a row of this table?
    pub fn accepts(&self, table: usize, cells: &[Cell]) -> Result<(), RowRefusal>
        ensures law { Lawful self.now }
        ensures answer { answered row_refusal_number result ≡ first_no (row_questions self.now table cells.now) }
    {
        let heading = self.headings.get(table).ok_or(RowRefusal::NoSuchTable)?;
        if cells.len() != heading.columns().len() {
            return Err(RowRefusal::ColumnCount);
        }
        if !all_fit(heading, cells) {
            return Err(RowRefusal::UnfitCell);
        }
        Ok(())
    }
}
