// The check of a formula table, and what a table that passes it measures.
ghost use Rattle.std.specs.Prelude.{◌≡◌, true, false, None, OnOk};
ghost use Rattle.knowledge.specs.Tables.Breaches.{CheckInWords};
ghost use Rattle.knowledge.specs.Tables.Check.{check};
ghost use Rattle.knowledge.specs.Tables.Questions.{Surveyed};
ghost use Rattle.knowledge.specs.Plans.{terms_of};

use crate::fault::Fault;
use crate::measure::Measure;
use crate::plan::Plan;
use crate::survey::Terms;
use crate::table::Record;

// Two calls, since the rules ask two questions: one call would take a flag that every caller writes out.
impl Plan {
    // Refuses a table that is no formula for the plan, or tells what the formula measures.
    #[tactic(auto, using(crate::proofs::Tables::InWords::check_in_words))]
    pub fn check(&self, formula: &[Record]) -> Result<Measure, Fault>
        ensures value { Surveyed (check (terms_of false self.now) formula.now) formula.now result }
        ensures words { CheckInWords }
    {
        self.terms(false).survey(formula)
    }

    // Refuses a table that is no law for the plan, or tells what the law measures. A law is a formula for the plan,
    // too.
    #[tactic(auto, using(crate::proofs::Tables::Laws::law_passes))]
    pub fn check_law(&self, law: &[Record]) -> Result<Measure, Fault>
        ensures value { Surveyed (check (terms_of true self.now) law.now) law.now result }
        ensures formula { OnOk result (check (terms_of false self.now) law.now ≡ None) }
    {
        self.terms(true).survey(law)
    }

    // What its tables are checked against.
    fn terms(&self, in_law: bool) -> Terms
        ensures { result ≡ terms_of in_law self.now }
    {
        Terms {
            facts: self.facts(),
            parties: self.parties(),
            in_law,
        }
    }
}
