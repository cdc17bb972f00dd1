// A section of facts that are withdrawn: each can spoil the store.
#![tactic(auto)]

ghost use Rattle.std.specs.Prelude.{◌≡◌, true, ◌≤◌, take};
ghost use Rattle.spec.specs.Tables.{tables, are_formed, count};
ghost use Rattle.spec.specs.Lists.{all};
ghost use Rattle.spec.specs.inside.Laid.{FormedStore};
ghost use Rattle.spec.specs.declared.Change.TheVariants.{Withdrawal};
ghost use Rattle.spec.specs.Updates.{update};
ghost use Rattle.spec.specs.Deliveries.{is_fact, run_entries};
ghost use Rattle.spec.specs.inside.Pairs.{progress};
ghost use Rattle.delivery_supports.specs.inside.Highest.{highest};
ghost use Rattle.delivery_section.specs.inside.Running.{section, Next};

use delivery_supports::bound;
use delivery_tally::{refused, tallied};
use spec::{Answer, Change, Tally, Triple};

// A fact's withdrawal: its answer, a bound of the supports after it, and whether the store is well formed still.
#[derive(Clone, Copy)]
struct WithdrawnFact {
    pub answer: Answer,
    pub bound: usize,
    pub formed: bool,
}

// Facts' withdrawals: the tallies after them, and whether the store is well formed still.
#[derive(Clone, Copy)]
pub struct Withdrawals {
    pub counted: Tally,
    pub formed: bool,
}

// Withdraws a fact from a well-formed store, whose supports have a known bound. What can spoil the store is a support above the
// number of facts that are left.
fn withdraw_fact(
    statements: &mut [u32],
    facts: &mut [u32],
    kept: &mut [u32],
    supports: &mut [u16],
    fact: Triple,
    known: usize,
) -> WithdrawnFact
    requires formed_store { FormedStore statements.old facts.old kept.old supports.old }
    requires fact_value { is_fact fact ≡ true }
    requires supports_bound { highest (take (count kept.old) supports.old) ≤ known }
    ensures supports_after { (result.answer, tables statements.new facts.new kept.new supports.new) ≡ update Withdrawal (tables statements.old facts.old kept.old supports.old) fact }
    ensures supports_bound_2 { highest (take (count kept.new) supports.new) ≤ result.bound }
    ensures formed_value { result.formed ≡ are_formed (tables statements.new facts.new kept.new supports.new) }
{
    let answer = store::update_formed(statements, facts, kept, supports, Change::Withdrawal, fact);
    let n = facts[0] as usize;
    let most = bound(supports, kept[0] as usize, n, known);
    WithdrawnFact {
        answer,
        bound: most,
        formed: most <= n,
    }
}

// Runs the entries of section k over a well-formed store: facts that are withdrawn. Once one has spoilt the store, the others are
// refused. A first bound of the supports is the number of facts; they are passed over only where the bound that is known is above it.
pub fn withdraw_facts(
    statements: &mut [u32],
    facts: &mut [u32],
    kept: &mut [u32],
    supports: &mut [u16],
    bytes: &[u8],
    k: usize,
    counted: Tally,
) -> Withdrawals
    requires formed_store { FormedStore statements.old facts.old kept.old supports.old }
    requires next { Next bytes.now k counted }
    requires k_value { all is_fact (section bytes.now k) ≡ true }
    ensures counted_after { progress (tables statements.new facts.new kept.new supports.new) result.counted ≡ run_entries (update Withdrawal) (section bytes.now k) (progress (tables statements.old facts.old kept.old supports.old) counted) }
    ensures formed_value { result.formed ≡ are_formed (tables statements.new facts.new kept.new supports.new) }
{
    let start = delivery_format::section_start(bytes, k);
    let entries = delivery_format::short_at(bytes, start);
    let mut sum = counted;
    let mut most = facts[0] as usize;
    for i in 0..entries {
        let fact = delivery_format::entry_at(bytes, start + 2 + i * delivery_format::ENTRY_BYTES);
        let step = withdraw_fact(statements, facts, kept, supports, fact, most);
        let answer = step.answer;
        sum = tallied(sum, answer);
        most = step.bound;
        if !step.formed {
            return Withdrawals {
                counted: refused(sum, entries - i - 1),
                formed: false,
            };
        }
    }
    Withdrawals {
        counted: sum,
        formed: true,
    }
}
