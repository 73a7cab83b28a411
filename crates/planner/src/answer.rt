//! The answer to one question: a search under a heater, until it arrives, ends or is full.
ghost use Rattle.std.specs.Prelude.{◌≡◌, ℕ, ◌<◌, length};
ghost use Rattle.loads.specs.Charge.{charge as charge_of, charges};
ghost use Rattle.promises.specs.Begin.{begin_check, query};
ghost use Rattle.search.specs.SearchNumbers.{numbers};
ghost use Rattle.planner.specs.Answer.{AnsweredBy, question_check, query_of};
ghost use Rattle.planner.specs.Told.{RoadsOf, ToldBy};

use front::label::Label;
use loads::charge::{Charge, ChargeKind};
use maps::Map;
use maps::heater::{Heater, Power};
use promises::candidate::Candidate;
use promises::standing::Standing;
use promises::trip::Trip;
pub use questions::Question;
use refusals::refusal::Refusal;
use search::Search;

/// The fastest drive.
#[derive(Clone, Copy, PartialEq, Eq, Debug)]
pub struct Route {
    pub seconds: u32,
    /// The charge left at the goal.
    pub charge: u32,
    /// How many roads it has.
    pub roads: u32,
}

/// What an office is told of a question that passes every check.
#[derive(Clone, Copy, PartialEq, Eq, Debug)]
pub enum Answer {
    /// The fastest drive.
    Route(Route),
    /// No drive reaches the goal within the deadline.
    NoRoute,
    /// All labels are used, none of them at the goal, and the front has more.
    Full,
}

// How many roads a listed label's walk has: a trace into an empty buffer tells the count needed.
fn roads_of(search: &Search, labels: &[Label<Charge>], label: u32) -> u32
    ensures { RoadsOf (numbers search.now) labels.now label result }
{
    match search.trace(labels, label, &mut []) {
        Ok(count) | Err(Refusal::BufferTooShort(count)) => count,
        Err(_) => 0,
    }
}

// What is answered where an advance stops.
fn told_by(search: &Search, labels: &[Label<Charge>], standing: Standing) -> Answer
    requires { (n : ℕ) → standing ≡ Standing.Arrived n → n < length labels.now }
    ensures { ToldBy (numbers search.now) labels.now standing result }
{
    match standing {
        Standing::Arrived(n) => {
            let arrival = labels[n as usize].arrival;
            Answer::Route(Route {
                seconds: arrival.time,
                charge: arrival.load.level,
                roads: roads_of(search, labels, n),
            })
        }
        Standing::Ended => Answer::NoRoute,
        Standing::Full | Standing::Paused => Answer::Full,
    }
}

// Searches until it arrives, ends or is full.
fn answer_with<M: Map>(
    map: &M,
    kind: &ChargeKind,
    question: Question,
    labels: &mut [Label<Charge>],
    waiting: &mut [Candidate<Charge>],
) -> Result<Answer, Refusal>
    ensures { AnsweredBy (begin_check (length (M.Map.rows map.now)) ((charges kind.now.capacity.watt_hours).admits (charge_of question.charge)) question.start question.goal question.deadline (length labels.old) (length waiting.old)) (query (M.Map.rows map.now) (charges kind.now.capacity.watt_hours) question.start (charge_of question.charge) question.goal question.deadline) (length labels.old) result }
{
    let trip = Trip {
        start: question.start,
        load: Charge {
            level: question.charge,
        },
        goal: question.goal,
        deadline: question.deadline,
    };
    let mut search = Search::new();
    let standing = match search.begin(map, kind, trip, labels, waiting)? {
        Standing::Paused => {
            let budget = labels.len().min(65_535) as u32;
            search.advance(map, kind, labels, waiting, budget)?.standing
        }
        begun => begun,
    };
    Ok(told_by(&search, labels, standing))
}

/// Answers a question on a map, with the lent tables. Refuses the heater's power, then the capacity,
/// then as a search's begin does.
#[tactic(auto, using(crate::proofs::HeatedQuestion::answered_on_the_heated_map))]
pub fn answer_question<M: Map + Drop>(
    map: M,
    question: Question,
    labels: &mut [Label<Charge>],
    waiting: &mut [Candidate<Charge>],
) -> Result<Answer, Refusal>
    ensures refused_by_the_first_failing_check_else_so { AnsweredBy (question_check (M.Map.rows map) question (length labels.old) (length waiting.old)) (query_of (M.Map.rows map) question) (length labels.old) result }
{
    let power = Power::new(question.heater)?;
    let kind = ChargeKind::new(question.capacity)?;
    let heated = Heater::over(map, power);
    answer_with(&heated, &kind, question, labels, waiting)
}
