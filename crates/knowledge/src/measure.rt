// What a table's records measure: how deep they are, how many tells they nest, whether they mention knowledge.
ghost use Rattle.std.specs.Prelude.{◌≡◌, ◌≤◌};
ghost use Rattle.knowledge.specs.Tables.Measures.{child_of, combined, measure_of, Small};

use crate::table::{Family, Record};

// What a record measures, and so a formula by its last one. What is not there measures nothing, which is the default.
#[derive(Clone, Copy, PartialEq, Eq, Debug, Default)]
pub struct Measure {
    // one more than the deepest child's
    pub depth: usize,
    // how many tells it nests, each of which needs a mark
    pub tells: usize,
    // whether it is, or is built on, what a party knows or a group shares
    pub knowledge: bool,
}

impl Measure {
    // What a record measures that follows records with these measures.
    pub(crate) fn of(record: Record, earlier: &[Measure]) -> Measure
        requires { Small 12 earlier.now }
        ensures { result ≡ measure_of earlier.now «record» }
    {
        let (first, second) = record.kind.children();
        combined(
            record.kind.family(),
            child(earlier, first),
            child(earlier, second),
        )
    }
}

// What a child measures, if it is one of the earlier records.
fn child(earlier: &[Measure], at: Option<usize>) -> Measure
    ensures { result ≡ child_of earlier.now at }
{
    at.and_then(|a| earlier.get(a)).copied().unwrap_or_default()
}

// What a record measures, from what its children do.
fn combined(family: Family, a: Measure, b: Measure) -> Measure
    requires { (a.depth ≤ 12) × ((b.depth ≤ 12) × (b.tells ≤ 12)) }
    ensures { result ≡ combined family a b }
{
    let below = a.tells.max(b.tells);
    let tells = match family {
        Family::Telling => below.max(b.tells + 1),
        _ => below,
    };
    Measure {
        depth: 1 + a.depth.max(b.depth),
        tells,
        knowledge: family == Family::Knowing || a.knowledge || b.knowledge,
    }
}
