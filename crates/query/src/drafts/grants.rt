// What a granted call does to a draft; each call has asked its questions before.
ghost use Rattle.std.specs.Prelude.{◌≡◌};
ghost use Rattle.basis.specs.Questions.{first_no};
ghost use Rattle.cells.specs.Headings.{columns};
ghost use Rattle.query.specs.Queries.{condition, projection};
ghost use Rattle.query.specs.Questions.{table_questions, with_table, join_questions, with_join, filter_questions, with_filter, show_questions, with_shown};

use crate::drafts::Draft;
use crate::types::{Filter, Join, Shown};
use cells::headings::Heading;
use expressions::types::Column;

impl Draft {
    pub(super) fn push_table(&mut self, heading: Heading, to: Column, own: usize)
        requires { 0 ≡ first_no (table_questions self.old (columns heading) to own) }
        ensures after { self.new ≡ with_table self.old (columns heading) to own }
    {
        let right = Column {
            table: self.tables(),
            column: own,
        };
        self.joins.push_reserved(Join { left: to, right });
        self.headings.push_reserved(heading);
    }

    pub(super) fn push_join(&mut self, join: Join)
        requires { 0 ≡ first_no (join_questions self.old join) }
        ensures after { self.new ≡ with_join self.old join }
    {
        self.joins.push_reserved(join);
    }

    pub(super) fn push_filter(&mut self, filter: Filter)
        requires { 0 ≡ first_no (filter_questions self.old (condition filter)) }
        ensures after { self.new ≡ with_filter self.old (condition filter) }
    {
        self.filters.push_reserved(filter);
    }

    pub(super) fn push_shown(&mut self, shown: Shown)
        requires { 0 ≡ first_no (show_questions self.old (projection shown)) }
        ensures after { self.new ≡ with_shown self.old (projection shown) }
    {
        self.shown.push_reserved(shown);
    }
}
