// The day once more through a store: its rows are built, and the lines found by asking `next` for the joins.
use crate::probes;
use cells::rows::Row;
use counting::Counting;
use faults::Fault;
use query::drafts::Draft;
use stores::Store;

// A query, the rows accepted, and the lines that the nested loops answer.
#[derive(Clone, Copy)]
pub(crate) struct Answered<'a> {
    pub(crate) draft: &'a Draft,
    pub(crate) tables: &'a [Vec<Row>],
    pub(crate) lines: &'a [u8],
}

// Builds the rows of each table, numbered from 1; a row that finds no room is left out.
fn build_all<S: Store>(store: &mut S, tables: &[Vec<Row>]) {
    for (table, rows) in tables.iter().enumerate() {
        for (stamp, row) in (1..).zip(rows) {
            let _ = store.build(table, *row, stamp);
        }
    }
}

impl Answered<'_> {
    // Says whether the lines through this store are the same, and how often the one that counts was asked.
    pub(crate) fn show<S: Store + Drop, T: Store + Drop, F: FnOnce(S) -> Counting<T> + Drop>(
        &self,
        rt: &HostRuntime,
        name: &str,
        mut store: S,
        counted: F,
    ) -> Result<(), Fault>
        requires { F.IsAlwaysCallable counted }
    {
        build_all(&mut store, self.tables);
        let found = probes::answer(rt.alloc(), self.draft, &mut store)?;
        let verdict = if found.as_slice() == self.lines {
            "the same lines"
        } else {
            "OTHER LINES"
        };
        let store = counted(store);
        println!(rt;
            "{name}: {verdict}; asked {} of punch, {} of crew",
            store.asked(0),
            store.asked(1)
        )?;
        Ok(())
    }
}
