// A fact added at the gap where it would stand, and one withdrawn at its place, once questions 1 to 3 are passed (document 01, "Tables").
#![tactic(auto)]

ghost use Rattle.std.specs.Prelude.{◌≡◌, true};
ghost use Rattle.spec.specs.Terms.{is_allowed_fact};
ghost use Rattle.spec.specs.Tables.{rows, tables};
ghost use Rattle.table_find.specs.inside.Search.{place};
ghost use Rattle.spec.specs.inside.Laid.{FormedStore};
ghost use Rattle.spec.specs.declared.Answer.TheVariants.{Applied};
ghost use Rattle.spec.specs.Updates.{add, withdraw};
ghost use Rattle.spec.specs.inside.Pairs.{outcome};

use spec::{Answer, Triple};
use update_kept::kept_capacity;
use update_lower::lower_all;
use update_raise::{count_missing, raise_all};

// Adds a fact that is not there, at the gap where it would stand: refused by 4 or 5 only on a counted excess.
pub fn add_new_fact(
    statements: &[u32],
    facts: &mut [u32],
    kept: &mut [u32],
    supports: &mut [u16],
    fact: Triple,
    at: usize,
) -> Answer
    requires formed_store { FormedStore statements.now facts.old kept.old supports.old }
    requires fact_value { is_allowed_fact fact ≡ true }
    requires facts_value { place fact (rows facts.old) ≡ Err at }
    ensures { outcome result (tables statements.now facts.new kept.new supports.new) ≡ add (tables statements.now facts.old kept.old supports.old) fact }
{
    let n = facts[0] as usize;
    if table::capacity(facts.len(), table::MOST_FACTS) <= n {
        return Answer::Refused(4);
    }
    let mut list = rdfs_carry::no_rows();
    let c = rdfs_carry::carry(statements, fact, &mut list);
    let missing = count_missing(kept, &list, c);
    if kept_capacity(kept, supports) < kept[0] as usize + missing {
        return Answer::Refused(5);
    }
    table_change::insert_at(facts, at, fact);
    raise_all(kept, supports, &list, c, missing);
    Answer::Applied
}

// Withdraws a fact that is there, at its place. This is always applied: lowering adds no row, so that 5 never refuses.
pub fn withdraw_old_fact(
    statements: &[u32],
    facts: &mut [u32],
    kept: &mut [u32],
    supports: &mut [u16],
    fact: Triple,
    at: usize,
)
    requires formed_store { FormedStore statements.now facts.old kept.old supports.old }
    requires fact_value { is_allowed_fact fact ≡ true }
    requires facts_value { place fact (rows facts.old) ≡ Ok at }
    ensures { outcome Applied (tables statements.now facts.new kept.new supports.new) ≡ withdraw (tables statements.now facts.old kept.old supports.old) fact }
{
    let mut list = rdfs_carry::no_rows();
    let c = rdfs_carry::carry(statements, fact, &mut list);
    table_change::remove_at(facts, at);
    lower_all(kept, supports, &list, c);
}
