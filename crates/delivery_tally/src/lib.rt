// Tallies that rise as entries of a delivery are dealt with (document 01, "Deliveries").
#![tactic(auto)]

ghost use Rattle.std.specs.Prelude.{◌≡◌, ◌+◌, ◌^◌, ◌<◌};
ghost use Rattle.spec.specs.Deliveries.{tally, tallied};
ghost use Rattle.delivery_tally.specs.inside.Totals.{total};

use spec::{Answer, Tally};

// No entry as yet.
pub fn none() -> Tally
    ensures { result ≡ tally 0 0 0 }
{
    Tally {
        applied: 0,
        idle: 0,
        refused: 0,
    }
}

// One entry more, with its answer: the tally of that answer, by 1.
fn raised(counted: Tally, answer: Answer) -> Tally
    requires { total counted + 1 < 2 ^ 32 }
    ensures { result ≡ tallied answer counted }
{
    match answer {
        Answer::Applied => Tally {
            applied: counted.applied + 1,
            ..counted
        },
        Answer::Idle => Tally {
            idle: counted.idle + 1,
            ..counted
        },
        Answer::Refused(_) => Tally {
            refused: counted.refused + 1,
            ..counted
        },
    }
}

// Counts one entry more, with its answer, in tallies that are lent.
fn count(tally: &mut Tally, answer: Answer)
    requires { total tally.old + 1 < 2 ^ 32 }
    ensures { tally.new ≡ tallied answer tally.old }
{
    *tally = raised(*tally, answer);
}

// One entry more, with its answer, for callers that hold tallies by value: a copy of them is lent.
pub fn tallied(counted: Tally, answer: Answer) -> Tally
    requires { total counted + 1 < 2 ^ 32 }
    ensures { result ≡ tallied answer counted }
{
    let mut sum = counted;
    count(&mut sum, answer);
    sum
}

// So many entries more, all refused.
pub fn refused(counted: Tally, entries: usize) -> Tally
    requires { total counted + entries < 2 ^ 32 }
    ensures { result ≡ tally counted.applied counted.idle (counted.refused + entries) }
{
    Tally {
        refused: counted.refused + entries as u32,
        ..counted
    }
}
