// Takes a sample matter through the queue's scheduler: makes its plan, checks its law and its notices,
// and says of each notice what it needs and whether it may change places with others.
#![tactic(auto)]

mod report;
mod sample;

use knowledge::fault::Fault;
use knowledge::plan::Plan;
use report::{Outcome, Report, of_law, of_notice};

fn main(rt: HostRuntime) -> anyhow::Result<()> {
    run(&rt)
}

fn run(rt: &impl Print) -> anyhow::Result<()> {
    let plan = sample::plan()?;
    println!(rt; "plan: facts {}, parties {}", plan.facts(), plan.parties())?;
    laws(rt, &plan)?;
    notices(rt, &plan)
}

// A line for a law or a notice: its text, then its report or its refusal.
fn line(rt: &impl Print, text: &str, report: Result<Report, Fault>) -> anyhow::Result<()> {
    let outcome = Outcome { report };
    println!(rt; "{text}: {outcome}")?;
    Ok(())
}

fn laws(rt: &impl Print, plan: &Plan) -> anyhow::Result<()> {
    let alice_knows = sample::alice_knows_second();
    line(rt, "LAW (1|2)", of_law(plan, &sample::some_offer()))?;
    line(rt, "LAW alice knows that 2", of_law(plan, &alice_knows))
}

// The notices of the bidding round, as they stand in the queue, and some that are faulty.
fn notices(rt: &impl Print, plan: &Plan) -> anyhow::Result<()> {
    for (text, table) in [
        ("POST (1|2)", &sample::some_offer()[..]),
        ("POST nobody knows yet", &sample::nobody_knows()[..]),
        ("POST 2", &sample::second()[..]),
        (
            "POST [{bob}!1][{alice}?!2](1&2)",
            &sample::tells_before()?[..],
        ),
        (
            "POST {alice,bob} shared whether 1",
            &sample::shared_first()?[..],
        ),
        // those that no matter of the plan takes
        ("POST without records", &[][..]),
        ("POST 3", &sample::third()[..]),
        ("POST carol knows that 1", &sample::carol_knows_first()[..]),
        ("POST twelve times not", &sample::nested()[..]),
        ("POST not itself", &sample::itself()[..]),
    ] {
        line(rt, text, of_notice(plan, table))?;
    }
    Ok(())
}
