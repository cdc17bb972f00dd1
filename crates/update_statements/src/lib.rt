// Additions and withdrawals of statements, once questions 1 to 3 are passed (document 01, "Tables").
#![tactic(auto)]

ghost use Rattle.std.specs.Prelude.{◌≡◌, true};
ghost use Rattle.spec.specs.Terms.{is_allowed_statement};
ghost use Rattle.spec.specs.Tables.{tables};
ghost use Rattle.spec.specs.inside.Laid.{FormedStore};
ghost use Rattle.spec.specs.Updates.{update};
ghost use Rattle.spec.specs.inside.Pairs.{outcome};

use spec::{Answer, Change, Triple};
use update_statement_at::{add_new_statement, withdraw_old_statement};

// Adds or withdraws a statement, once questions 1 to 3 are passed. Adding what is there is idle, whatever the capacities, and so is
// withdrawing what is absent.
pub fn update_statement(
    statements: &mut [u32],
    facts: &[u32],
    kept: &mut [u32],
    supports: &mut [u16],
    change: Change,
    statement: Triple,
) -> Answer
    requires formed_store { FormedStore statements.old facts.now kept.old supports.old }
    requires statement_value { is_allowed_statement statement ≡ true }
    ensures { outcome result (tables statements.new facts.now kept.new supports.new) ≡ update change (tables statements.old facts.now kept.old supports.old) statement }
{
    let n = statements[0] as usize;
    match table_find::find(statements, n, statement) {
        Ok(at) => match change {
            Change::Addition => Answer::Idle,
            Change::Withdrawal => withdraw_old_statement(
                statements, facts, kept, supports, statement, at,
            ),
        },
        Err(at) => match change {
            Change::Addition => add_new_statement(statements, facts, kept, supports, statement, at),
            Change::Withdrawal => Answer::Idle,
        },
    }
}
