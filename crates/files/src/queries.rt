//! A query file, line by line, into a list of queries.
ghost use Rattle.std.specs.Prelude.{◌≡◌, vec_items};
ghost use Rattle.std.proofs.Common.{rules};
ghost use Rattle.files.specs.Files.{ReadAs};
ghost use Rattle.files.specs.Queries.{query_same, query_named, blank_query, query_filled, query_list, with_value};

use crate::columns::{BlankRow, Column};
use crate::fault::{FileName, ReadFault};
use crate::lines::LineReader;
use crate::rows::{next_row, read_columns};
use crate::values::read_value;
pub use questions::question::Question;
use refusals::refusal::Refusal;
use std::alloc::Global;

/// The columns of a query file.
#[derive(Clone, Copy, PartialEq, Eq)]
pub enum QueryColumn {
    Start,
    Goal,
    Charge,
    Capacity,
    Deadline,
    Heater,
}

impl QueryColumn {
    const ALL: [QueryColumn; 6] = [
        QueryColumn::Start,
        QueryColumn::Goal,
        QueryColumn::Charge,
        QueryColumn::Capacity,
        QueryColumn::Deadline,
        QueryColumn::Heater,
    ];
}

fn with_value(mut question: Question, column: QueryColumn, value: u32) -> Question
    ensures { result ≡ with_value question column value }
{
    match column {
        QueryColumn::Start => question.start = value,
        QueryColumn::Goal => question.goal = value,
        QueryColumn::Charge => question.charge = value,
        QueryColumn::Capacity => question.capacity = value,
        QueryColumn::Deadline => question.deadline = value,
        QueryColumn::Heater => question.heater = value,
    }
    question
}

impl Column for QueryColumn {
    type Row = Question;

    ghost same = { query_same };

    ghost named = { query_named };

    ghost equal_when_the_same = { Prim.search rules };

    ghost filled = { query_filled };

    fn from_name(name: &[u8]) -> Option<QueryColumn> {
        match name {
            b"start" => Some(QueryColumn::Start),
            b"goal" => Some(QueryColumn::Goal),
            b"charge" => Some(QueryColumn::Charge),
            b"capacity" => Some(QueryColumn::Capacity),
            b"deadline" => Some(QueryColumn::Deadline),
            b"heater" => Some(QueryColumn::Heater),
            _ => None,
        }
    }

    fn fill(self, row: Question, _room: u32, field: &[u8]) -> Result<Question, Refusal> {
        let value = read_value(field)?;
        Ok(with_value(row, self, value))
    }
}

impl BlankRow for QueryColumn {
    ghost blank = { blank_query };

    fn blank() -> Question {
        Question::default()
    }
}

/// The queries of a query file in the order of its lines, or its first fault from the top.
pub fn read_queries(heap: Global, text: &[u8]) -> Result<Vec<Question>, ReadFault>
    ensures { ReadAs vec_items result (query_list text.now) }
{
    let mut lines = LineReader::new(FileName::Queries, text);
    let columns = read_columns(&mut lines, QueryColumn::ALL)?;
    let mut questions = Vec::new(heap);
    while let Some(question) = next_row(&mut lines, &columns, 0)? {
        questions.push(question)?;
    }
    Ok(questions)
}
