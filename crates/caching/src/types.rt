// A question and its answer.
use stores::Question;

// What a store is asked, of which table.
#[derive(Clone, Copy, Debug, PartialEq, Eq)]
pub struct Asked {
    pub table: usize,
    pub question: Question,
}

#[derive(Clone, Copy, Debug, PartialEq, Eq)]
pub struct Remembered {
    pub asked: Asked,
    pub answer: Option<usize>,
}
