// A statement added at the gap where it would stand, and one withdrawn at its place, once questions 1 to 3 are passed (document 01, "Tables").
#![tactic(auto)]

ghost use Rattle.std.specs.Prelude.{◌≡◌, true};
ghost use Rattle.spec.specs.Terms.{is_allowed_statement};
ghost use Rattle.spec.specs.Tables.{rows, tables};
ghost use Rattle.table_find.specs.inside.Search.{place};
ghost use Rattle.spec.specs.inside.Laid.{FormedStore};
ghost use Rattle.spec.specs.Updates.{add, withdraw};
ghost use Rattle.spec.specs.inside.Pairs.{outcome};

use spec::{Answer, Triple};
use update_kept::kept_capacity;

// Adds a statement that is not there, at the gap where it would stand. Where the kept facts worked out afresh do not fit, it is
// taken out again.
pub fn add_new_statement(
    statements: &mut [u32],
    facts: &[u32],
    kept: &mut [u32],
    supports: &mut [u16],
    statement: Triple,
    at: usize,
) -> Answer
    requires formed_store { FormedStore statements.old facts.now kept.old supports.old }
    requires statement_value { is_allowed_statement statement ≡ true }
    requires statements_value { place statement (rows statements.old) ≡ Err at }
    ensures { outcome result (tables statements.new facts.now kept.new supports.new) ≡ add (tables statements.old facts.now kept.old supports.old) statement }
{
    let n = statements[0] as usize;
    if table::capacity(statements.len(), table::MOST_STATEMENTS) <= n {
        return Answer::Refused(4);
    }
    let room = kept_capacity(kept, supports);
    table_change::insert_at(statements, at, statement);
    if saturate::saturate(statements, facts, kept, supports, room) {
        return Answer::Applied;
    }
    table_change::remove_at(statements, at);
    Answer::Refused(5)
}

// Withdraws a statement that is there, at its place. Where the kept facts worked out afresh do not fit, it is put in again.
pub fn withdraw_old_statement(
    statements: &mut [u32],
    facts: &[u32],
    kept: &mut [u32],
    supports: &mut [u16],
    statement: Triple,
    at: usize,
) -> Answer
    requires formed_store { FormedStore statements.old facts.now kept.old supports.old }
    requires statement_value { is_allowed_statement statement ≡ true }
    requires statements_value { place statement (rows statements.old) ≡ Ok at }
    ensures { outcome result (tables statements.new facts.now kept.new supports.new) ≡ withdraw (tables statements.old facts.now kept.old supports.old) statement }
{
    let room = kept_capacity(kept, supports);
    table_change::remove_at(statements, at);
    if saturate::saturate(statements, facts, kept, supports, room) {
        return Answer::Applied;
    }
    table_change::insert_at(statements, at, statement);
    Answer::Refused(5)
}
