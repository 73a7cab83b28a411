//! `route`: reads roads.txt and queries.txt in the working directory, and writes one answer a line, or
//! the first fault of a file.
#![tactic(auto)]

use files::fault::{FileName, ReadFault};
use files::road_file::read_roads;
use inputs::text_file::{print_fault, read_file};
use office::answer_line::AnswerLine;
use office::answers::{JUNCTIONS, answer_files};
use planner::answer::Answer;
use refusals::refusal::Refusal;
use std::io;

// The answers, or the first fault; where the queries cannot be read, the roads' own fault comes first.
fn answers(rt: &HostRuntime) -> Result<Vec<Result<Answer, Refusal>>, ReadFault> {
    let roads = read_file(rt, FileName::Roads)?;
    match read_file(rt, FileName::Queries) {
        Ok(queries) => answer_files(rt.alloc(), &roads, &queries),
        Err(fault) => {
            let _ = read_roads(rt.alloc(), &roads, JUNCTIONS)?;
            Err(ReadFault::InFile(fault))
        }
    }
}

fn print_answers(rt: &HostRuntime, answers: &[Result<Answer, Refusal>]) -> io::Result<()> {
    println!(rt; "query answer seconds charge roads code")?;
    for (query, &answer) in (1..=answers.len()).zip(answers) {
        let line = AnswerLine { query, answer };
        println!(rt; "{line}")?;
    }
    Ok(())
}

fn main(rt: HostRuntime) -> anyhow::Result<()> {
    match answers(&rt) {
        Ok(answers) => Ok(print_answers(&rt, &answers)?),
        Err(ReadFault::InFile(fault)) => Ok(print_fault(&rt, fault)?),
        Err(fault @ ReadFault::NoMemory) => Err(fault.into()),
    }
}
