//! From the bytes of two files to the answers, or the first fault.
ghost use Rattle.std.specs.Prelude.{IfOk};
ghost use Rattle.office.specs.Answers.{EachAnswered, FilesAnswered};

use files::fault::ReadFault;
use files::queries::read_queries;
use files::road_file::read_roads;
use front::label::Label;
use maps::Map;
use maps::table::TableMap;
use planner::answer::{Answer, Question, answer_question};
use promises::candidate::Candidate;
use refusals::refusal::Refusal;
use std::alloc::{AllocError, Global};

/// How many junctions a road file may have.
pub const JUNCTIONS: u32 = 256;

/// How many labels there is room for.
pub const LABELS: usize = 100;

/// How many waiting records there is room for: twelve for each label.
pub const WAITING: usize = 12 * LABELS;

// The answers to the questions on a map, in order.
#[tactic(auto, using(crate::proofs::Answering::next_is_answered))]
fn answer_all<M: Map + Copy>(
    heap: Global,
    map: M,
    questions: &[Question],
) -> Result<Vec<Result<Answer, Refusal>>, AllocError>
    ensures { IfOk result (λ v. EachAnswered (M.Map.rows map) questions.now v.items) }
{
    let mut labels = vec![in heap; Label::default(); LABELS]?;
    let mut waiting = vec![in heap; Candidate::default(); WAITING]?;
    let mut answers = Vec::new(heap);
    // A `for`: tried as `map` and `collect`, whose closure changes both tables; that each of its calls answers so did not prove.
    for question in questions {
        answers.push(answer_question(map, *question, &mut labels, &mut waiting))?;
    }
    Ok(answers)
}

/// The answers to the queries of one file on the map of the other, or the first fault: of the road
/// file, else of the query file. For up to 256 junctions, with 100 labels and 1,200 waiting records.
pub fn answer_files(
    heap: Global,
    roads: &[u8],
    queries: &[u8],
) -> Result<Vec<Result<Answer, Refusal>>, ReadFault>
    ensures each_query_answered_or_the_first_fault { FilesAnswered roads.now queries.now result }
{
    let tables = read_roads(heap, roads, JUNCTIONS)?;
    let questions = read_queries(heap, queries)?;
    let map = TableMap::new(tables.lent()).unwrap();
    Ok(answer_all(heap, map, &questions)?)
}
