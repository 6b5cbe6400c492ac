// What the scheduler learns of a law or a notice.
ghost use Rattle.std.specs.Prelude.{◌≡◌, Some};
ghost use Rattle.knowledge.specs.Tables.Questions.{Gauge};
ghost use Rattle.knowledge.specs.Tables.Tables.{formula, depth};
ghost use Rattle.release.specs.Reports.{cost_line, line, outcome, cost_of, LawReported, NoticeReported};

use knowledge::fault::Fault;
use knowledge::measure::Measure;
use knowledge::plan::Plan;
use knowledge::table::Record;
use std::fmt;

// What a formula takes: its records, its depth, and the marks for its tells.
#[derive(Clone, Copy, PartialEq, Eq, Debug)]
pub struct Cost {
    records: usize,
    depth: usize,
    tells: usize,
}

// The report on a law or a notice that the check passed.
#[derive(Clone, Copy, PartialEq, Eq, Debug)]
pub enum Report {
    // a law
    Law(Cost),
    // a notice that may change places with others like it
    Movable(Cost),
    // a notice that keeps its place
    Fixed(Cost),
}

impl fmt::Display for Cost {
    ghost output = { λ c. Some (cost_line c) };

    fn fmt<W: fmt::Write>(&self, f: &mut fmt::Formatter<W>) -> fmt::Result {
        write!(
            f,
            "records {}, depth {}, tells {}",
            self.records, self.depth, self.tells
        )
    }
}

impl fmt::Display for Report {
    ghost output = { λ r. Some (line r) };

    fn fmt<W: fmt::Write>(&self, f: &mut fmt::Formatter<W>) -> fmt::Result {
        match self {
            Report::Law(cost) => write!(f, "{cost}"),
            Report::Movable(cost) => write!(f, "{cost}, may change places"),
            Report::Fixed(cost) => write!(f, "{cost}, keeps its place: it mentions knowledge"),
        }
    }
}

// What comes of a law or a notice: its report, or the check's refusal.
#[derive(Clone, Copy, PartialEq, Eq, Debug)]
pub struct Outcome {
    pub report: Result<Report, Fault>,
}

impl fmt::Display for Outcome {
    ghost output = { λ o. Some (outcome o.report) };

    fn fmt<W: fmt::Write>(&self, f: &mut fmt::Formatter<W>) -> fmt::Result {
        match self.report {
            Ok(report) => write!(f, "{report}"),
            Err(fault) => write!(f, "{fault}"),
        }
    }
}

impl Cost {
    // What a formula takes that measures so much.
    fn of(table: &[Record], measure: Measure) -> Cost
        requires { Gauge (formula table.now) (depth table.now) measure }
        ensures { result ≡ cost_of table.now }
    {
        Cost {
            records: table.len(),
            depth: measure.depth,
            tells: measure.tells,
        }
    }
}

// The report on a law, or the check's refusal.
pub fn of_law(plan: &Plan, law: &[Record]) -> Result<Report, Fault>
    ensures { LawReported plan.now law.now result }
{
    let measure = plan.check_law(law)?;
    Ok(Report::Law(Cost::of(law, measure)))
}

// The report on a notice, or the check's refusal.
pub fn of_notice(plan: &Plan, notice: &[Record]) -> Result<Report, Fault>
    ensures { NoticeReported plan.now notice.now result }
{
    let cost = Cost::of(notice, plan.check(notice)?);
    if plan.may_change_places(notice)? {
        Ok(Report::Movable(cost))
    } else {
        Ok(Report::Fixed(cost))
    }
}
