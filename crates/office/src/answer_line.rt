//! The line that is written for an answer.
ghost use Rattle.std.specs.Prelude.{Some};
ghost use Rattle.office.specs.AnswerLine.{answer_line};

use planner::answer::{Answer, Route};
use refusals::refusal::Refusal;
use std::fmt;

/// The answer to a query, with the query's number from 1.
#[derive(Clone, Copy)]
pub struct AnswerLine {
    pub query: usize,
    pub answer: Result<Answer, Refusal>,
}

/// The query's number, the answer, its seconds, charge and roads, and its code; `-` where there is none.
impl fmt::Display for AnswerLine {
    ghost output = { λ l. Some (answer_line l.query l.answer) };

    fn fmt<W: fmt::Write>(&self, f: &mut fmt::Formatter<W>) -> fmt::Result {
        let n = self.query;
        match self.answer {
            Ok(
                Answer::Route(
                    Route {
                        seconds,
                        charge,
                        roads,
                    },
                ),
            ) => write!(f, "{n} route {seconds} {charge} {roads} -"),
            Ok(Answer::NoRoute) => write!(f, "{n} none - - - -"),
            Ok(Answer::Full) => write!(f, "{n} full - - - -"),
            Err(refusal) => {
                let code = refusal.number();
                write!(f, "{n} refused - - - {code}")
            }
        }
    }
}
