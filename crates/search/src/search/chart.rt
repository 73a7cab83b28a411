//! The chart of a search over profiles: rows read off the labels in order.
ghost use Rattle.std.specs.Prelude.{◌≡◌, ◌+◌, ◌≤◌, ◌++◌, length, drop};
ghost use Rattle.std.specs.Iterator.{at_most, YieldsFirst};
ghost use Rattle.promises.specs.Chart.{ChartPromise, charting, begins_plain};
ghost use Rattle.promises.specs.Runs.Call.{chart as chart_call};
ghost use Rattle.promises.specs.Law.{EveryRunKeeps};
ghost use Rattle.promises.specs.ChartLaw.{ToldByCharts};
ghost use Rattle.search.specs.SearchNumbers.{numbers};
ghost use Rattle.charts.specs.Chart.{chart, gets_row, rows_from};

use super::Search;
use charts::row::Row;
use front::label::Label;
use loads::profile::{Profile, ProfileKind};
use refusals::refusal::Refusal;

// Whether the first label's load is the kind's plain profile.
fn starts_plain(kind: &ProfileKind, labels: &[Label<Profile>]) -> bool
    ensures { result ≡ begins_plain kind.now.capacity.watt_hours labels.now }
{
    labels
        .first()
        .is_some_and(|first| first.arrival.load == kind.plain())
}

// The rows that labels get, read off in order.
#[derive(Drop)]
struct ChartRows<'a> {
    // the labels that are left, and the number of the first of them
    labels: &'a [Label<Profile>],
    // counted here in u32, as a row tells it: `enumerate` counts in usize, and each row would cast its number
    number: u32,
    goal: u32,
    // the need to which the rows before have come down
    least: Option<u32>,
    ghost numbered: { number + length labels.now ≤ 65535 },
}

impl<'a> ChartRows<'a> {
    // The rows of labels, the first of which has the number 0.
    fn new(labels: &'a [Label<Profile>], goal: u32) -> ChartRows<'a>
        requires { length labels.now ≤ 65535 }
        ensures labels_left { result.labels.now ≡ labels.now }
        ensures rows_left { rows_from result.goal result.number result.least result.labels.now ≡ chart goal labels.now }
    {
        ChartRows {
            labels,
            number: 0,
            goal,
            least: None,
        }
    }

    // Whether a label gets a row.
    fn has_row(&self, label: &Label<Profile>) -> bool
        ensures { result ≡ gets_row self.now.goal self.now.least label.now }
    {
        label.arrival.junction == self.goal
            && self.least.is_none_or(|need| label.arrival.load.need < need)
    }
}

impl Iterator for ChartRows<'_> {
    type Item = Row;

    ghost next_gives = { YieldsFirst (λ s. rows_from s.goal s.number s.least s.labels.now) };

    ghost remaining = { λ s. at_most (length s.labels.now) };

    fn next(&mut self) -> Option<Row> {
        while let Some((label, others)) = self.labels.split_first() {
            let number = self.number;
            let found = self.has_row(label);
            self.labels = others;
            self.number += 1;
            if found {
                let need = label.arrival.load.need;
                self.least = Some(need);
                return Some(Row {
                    need,
                    seconds: label.arrival.time,
                    label: number,
                });
            }
        }
        None
    }
}

// How many rows labels have.
fn count_rows(labels: &[Label<Profile>], goal: u32) -> u32
    requires { length labels.now ≤ 65535 }
    ensures { result ≡ length (chart goal labels.now) }
{
    ChartRows::new(labels, goal).count() as u32
}

// Writes the rows of labels.
#[tactic(auto, using(crate::proofs::WrittenRows::written))]
fn write_rows(labels: &[Label<Profile>], goal: u32, rows: &mut [Row])
    requires { (length labels.now ≤ 65535) × (length (chart goal labels.now) ≤ length rows.old) }
    ensures { rows.new ≡ chart goal labels.now ++ drop (length (chart goal labels.now)) rows.old }
{
    // By index: after a loop over iter_mut a proof knows the length alone.
    for (i, row) in ChartRows::new(labels, goal).enumerate() {
        rows[i] = row;
    }
}

impl Search {
    /// Writes a row for each label at the goal that needs less than all earlier ones there, and answers
    /// their count. For searches begun with the kind's plain profile.
    pub fn chart(
        &self,
        kind: &ProfileKind,
        labels: &[Label<Profile>],
        rows: &mut [Row],
    ) -> Result<u32, Refusal>
        ensures promised { ChartPromise (charting kind.now.capacity.watt_hours labels.now rows.old rows.new result) (numbers self.now) }
        ensures every_run_with_this_call_keeps_the_law { EveryRunKeeps ToldByCharts (numbers self.now) (chart_call (charting kind.now.capacity.watt_hours labels.now rows.old rows.new result)) }
    {
        let run = self.begun_with(labels.len())?;
        if !starts_plain(kind, labels) {
            return Err(Refusal::NotPlainProfile);
        }
        let listed = &labels[..run.listed as usize];
        let count = count_rows(listed, run.goal);
        if rows.len() < count as usize {
            return Err(Refusal::BufferTooShort(count));
        }
        write_rows(listed, run.goal, rows);
        Ok(count)
    }
}
