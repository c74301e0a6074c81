// The calls that add filters and shown things. A refused call changes nothing, and so does one that finds no memory.
ghost use Rattle.std.specs.Prelude.{◌≡◌, is_ok, if◌then◌else◌};
ghost use Rattle.basis.specs.Questions.{first_no, answered};
ghost use Rattle.query.specs.Queries.{Condition, value, code};
ghost use Rattle.query.specs.Questions.{refusal_number, Answers, filter_questions, with_filter, show_questions, with_shown};

use crate::columns::{column_kind, columns_fit};
use crate::drafts::Draft;
use crate::types::{DraftError, Filter, Refusal, Shown, Test};
use cells::types::Kind;
use expressions::types::{Column, Item};
use expressions::well_formed;

impl Draft {
    // Asks the questions of a filter.
    fn ask_filter(&self, test: Test, left: &[Item], right: &[Item]) -> Result<(), Refusal>
        ensures answer { answered refusal_number result ≡ first_no (filter_questions self.now (record { test = test; left = left.now; right = right.now })) }
    {
        if self.filters.len() >= 8 {
            return Err(Refusal::NinthFilter);
        }
        if !(well_formed(left) && well_formed(right)) {
            return Err(Refusal::IllFormed);
        }
        if !(columns_fit(&self.headings, left) && columns_fit(&self.headings, right)) {
            return Err(Refusal::WrongColumn);
        }
        Ok(())
    }

    // One more filter.
    pub fn add_filter(
        &mut self,
        test: Test,
        left: &[Item],
        right: &[Item],
    ) -> Result<(), DraftError>
        ensures answer { Answers result (first_no (filter_questions self.old (record { test = test; left = left.now; right = right.now }))) }
        ensures after { self.new ≡ (if is_ok result then with_filter self.old (record { test = test; left = left.now; right = right.now }) else self.old) }
    {
        self.ask_filter(test, left, right)?;
        let left = Vec::from_slice(self.heap, left)?;
        let right = Vec::from_slice(self.heap, right)?;
        self.push_filter(Filter { test, left, right });
        Ok(())
    }

    // Asks the questions of a shown expression.
    fn ask_value(&self, items: &[Item]) -> Result<(), Refusal>
        ensures answer { answered refusal_number result ≡ first_no (show_questions self.now (value items.now)) }
    {
        if self.shown.len() >= 6 {
            return Err(Refusal::SeventhShown);
        }
        if !well_formed(items) {
            return Err(Refusal::IllFormed);
        }
        if !columns_fit(&self.headings, items) {
            return Err(Refusal::WrongColumn);
        }
        Ok(())
    }

    // One more shown thing: the value of an expression.
    pub fn show_value(&mut self, items: &[Item]) -> Result<(), DraftError>
        ensures answer { Answers result (first_no (show_questions self.old (value items.now))) }
        ensures after { self.new ≡ (if is_ok result then with_shown self.old (value items.now) else self.old) }
    {
        self.ask_value(items)?;
        let items = Vec::from_slice(self.heap, items)?;
        self.push_shown(Shown::Value(items));
        Ok(())
    }

    // Asks the questions of a shown code column.
    fn ask_code(&self, column: Column) -> Result<(), Refusal>
        ensures answer { answered refusal_number result ≡ first_no (show_questions self.now (code column)) }
    {
        if self.shown.len() >= 6 {
            return Err(Refusal::SeventhShown);
        }
        if column_kind(&self.headings, column) != Some(Kind::Code) {
            return Err(Refusal::WrongColumn);
        }
        Ok(())
    }

    // One more shown thing: the code in a column.
    pub fn show_code(&mut self, column: Column) -> Result<(), DraftError>
        ensures answer { Answers result (first_no (show_questions self.old (code column))) }
        ensures after { self.new ≡ (if is_ok result then with_shown self.old (code column) else self.old) }
    {
        self.ask_code(column)?;
        self.push_shown(Shown::Code(column));
        Ok(())
    }
}
