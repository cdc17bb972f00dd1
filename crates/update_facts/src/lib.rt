// Additions and withdrawals of facts, once questions 1 to 3 are passed (document 01, "Tables").
#![tactic(auto)]

ghost use Rattle.std.specs.Prelude.{◌≡◌, true};
ghost use Rattle.spec.specs.Terms.{is_allowed_fact};
ghost use Rattle.spec.specs.Tables.{tables};
ghost use Rattle.spec.specs.inside.Laid.{FormedStore};
ghost use Rattle.spec.specs.Updates.{update};
ghost use Rattle.spec.specs.inside.Pairs.{outcome};

use spec::{Answer, Change, Triple};
use update_fact_at::{add_new_fact, withdraw_old_fact};

// Adds or withdraws a fact, once questions 1 to 3 are passed. Adding what is there is idle, whatever the capacities, and so is
// withdrawing what is absent.
pub fn update_fact(
    statements: &[u32],
    facts: &mut [u32],
    kept: &mut [u32],
    supports: &mut [u16],
    change: Change,
    fact: Triple,
) -> Answer
    requires formed_store { FormedStore statements.now facts.old kept.old supports.old }
    requires fact_value { is_allowed_fact fact ≡ true }
    ensures { outcome result (tables statements.now facts.new kept.new supports.new) ≡ update change (tables statements.now facts.old kept.old supports.old) fact }
{
    let n = facts[0] as usize;
    match table_find::find(facts, n, fact) {
        Ok(at) => match change {
            Change::Addition => Answer::Idle,
            Change::Withdrawal => {
                withdraw_old_fact(statements, facts, kept, supports, fact, at);
                Answer::Applied
            }
        },
        Err(at) => match change {
            Change::Addition => add_new_fact(statements, facts, kept, supports, fact, at),
            Change::Withdrawal => Answer::Idle,
        },
    }
}
