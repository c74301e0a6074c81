// What an expression is made of.

// A column of a query's table: tables are counted from 0, columns from 1.
#[derive(Clone, Copy, Debug, PartialEq, Eq)]
pub struct Column {
    pub table: usize,
    pub column: usize,
}

// A number, a number column, or an operator before its two expressions.
#[derive(Clone, Copy, Debug, PartialEq, Eq)]
pub enum Item {
    Number(i64),
    Column(Column),
    Add,
    Sub,
}
