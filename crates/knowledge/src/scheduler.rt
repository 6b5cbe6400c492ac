// Which notices of a queue may change places.
ghost use Rattle.std.specs.Prelude.{false};
ghost use Rattle.knowledge.specs.Plans.{terms_of};
ghost use Rattle.knowledge.specs.Tables.Check.{check};
ghost use Rattle.knowledge.specs.Tables.Questions.{Movable};
ghost use Rattle.knowledge.specs.Truth.Rules.{OpensAnswered, OpensSettled, OpensLawful, CallsAnswered, AnswersSettled};
ghost use Rattle.knowledge.specs.Truth.Runs.{RunsAgree, RunsSound};

use crate::fault::Fault;
use crate::plan::Plan;
use crate::table::Record;

impl Plan {
    // Whether a notice may change places with others that may: it does not mention knowledge. The law over runs says
    // what that is worth: two matters that got the same such notices in two orders give the same answers. It speaks of
    // the answers that the rules allow, and those exist for every call, and are one within what a board surely holds;
    // and after every run the model is one of S5 with the actual world in it.
    pub fn may_change_places(&self, notice: &[Record]) -> Result<bool, Fault>
        ensures value { Movable (check (terms_of false self.now) notice.now) notice.now result }
        ensures agree { RunsAgree × RunsSound }
        ensures opens { OpensAnswered × OpensSettled × OpensLawful }
        ensures calls { CallsAnswered × AnswersSettled }
    {
        self.check(notice).map(|measure| !measure.knowledge)
    }
}
