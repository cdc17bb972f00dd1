// What a store of document 01's form is, with its limits and with supports of 16 bits, and what is asked before it is carried over into lent tables
// of the new form (document 02, slip 5).
#![tactic(auto)]

ghost use Rattle.std.specs.Prelude.{◌≡◌};
ghost use Rattle.spec.specs.Refusals.{first_refusal};
ghost use Rattle.spec.specs.Tables.{tables};
ghost use Rattle.old_store.specs.CarryingOver.{is_old_store, has_room, carrying_checks};

use table::MOST_STATEMENTS;
use table_check::is_table;
use table_supports::is_support_table;

// The most facts of the old form.
const OLD_FACTS: usize = 65535;

// The most kept facts of the old form.
const OLD_KEPT: usize = 262143;

// How many words the new tables have, and how many support places.
#[derive(Clone, Copy)]
pub struct Lengths {
    pub statements: usize,
    pub facts: usize,
    pub kept: usize,
    pub supports: usize,
}

// Question 1: whether four tables are well formed together as a store of the old form.
pub fn is_old_store(statements: &[u32], facts: &[u32], kept: &[u32], supports: &[u16]) -> bool
    ensures { result ≡ is_old_store (tables statements.now facts.now kept.now supports.now) }
{
    if !is_table(statements, true, MOST_STATEMENTS) {
        return false;
    }
    if !is_table(facts, false, OLD_FACTS) {
        return false;
    }
    if !is_table(kept, false, OLD_KEPT) {
        return false;
    }
    is_support_table(supports, facts[0] as usize, kept[0] as usize)
}

// Whether n rows and their count have room in so many words.
fn has_room(n: u32, words: usize) -> bool
    ensures { result ≡ has_room n words }
{
    n as usize * 3 + 1 <= words
}

// The number of the first "no" to questions 1, 4 and 5 about an old store and new tables of such lengths, or 0.
pub fn refusal(
    statements: &[u32],
    facts: &[u32],
    kept: &[u32],
    supports: &[u16],
    new: Lengths,
) -> u32
    ensures { result ≡ first_refusal (carrying_checks (tables statements.now facts.now kept.now supports.now) new) }
{
    if !is_old_store(statements, facts, kept, supports) {
        return 1;
    }
    if !(has_room(statements[0], new.statements) & has_room(facts[0], new.facts)) {
        return 4;
    }
    if !(has_room(kept[0], new.kept) & (kept[0] as usize <= new.supports)) {
        return 5;
    }
    0
}
