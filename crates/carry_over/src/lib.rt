// A store of document 01's form carried over into lent tables of the new form (document 02, slip 5).
#![tactic(auto)]

ghost use Rattle.std.specs.Prelude.{◌≡◌, length};
ghost use Rattle.spec.specs.Tables.{tables};
ghost use Rattle.old_store.specs.CarryingOver.{lengths, zero_tables, carried_tables, carried, carry_over};
ghost use Rattle.old_store.specs.CarryingPromises.{CarryingAccepted};

use old_store::{Lengths, refusal};
use output::clear;
use table_copy::{copy_supports, copy_table};

// Sets all words of four tables to zero.
fn clear_tables(statements: &mut [u32], facts: &mut [u32], kept: &mut [u32], supports: &mut [u32])
    ensures { tables statements.new facts.new kept.new supports.new ≡ zero_tables (lengths (length statements.old) (length facts.old) (length kept.old) (length supports.old)) }
{
    clear(statements);
    clear(facts);
    clear(kept);
    clear(supports);
}

// Copies an old store, its statements s, facts f and kept facts k with the supports u, once questions 1, 4 and 5 are passed.
fn copy_tables(
    s: &[u32],
    f: &[u32],
    k: &[u32],
    u: &[u16],
    statements: &mut [u32],
    facts: &mut [u32],
    kept: &mut [u32],
    supports: &mut [u32],
)
    requires { CarryingAccepted (tables s.now f.now k.now u.now) (lengths (length statements.old) (length facts.old) (length kept.old) (length supports.old)) }
    ensures { tables statements.new facts.new kept.new supports.new ≡ carried_tables (tables s.now f.now k.now u.now) (lengths (length statements.old) (length facts.old) (length kept.old) (length supports.old)) }
{
    copy_table(s, statements);
    copy_table(f, facts);
    copy_table(k, kept);
    copy_supports(u, k[0] as usize, supports);
}

// Carries an old store, its statements s, facts f and kept facts k with the supports u, over into new tables, whatever these hold: 0, or the
// number of the first "no" to questions 1, 4 and 5, and then every word of the new tables is zero.
pub fn carry_over(
    s: &[u32],
    f: &[u32],
    k: &[u32],
    u: &[u16],
    statements: &mut [u32],
    facts: &mut [u32],
    kept: &mut [u32],
    supports: &mut [u32],
) -> u32
    ensures { carried result (tables statements.new facts.new kept.new supports.new) ≡ carry_over (tables s.now f.now k.now u.now) (lengths (length statements.old) (length facts.old) (length kept.old) (length supports.old)) }
{
    let new = Lengths {
        statements: statements.len(),
        facts: facts.len(),
        kept: kept.len(),
        supports: supports.len(),
    };
    let n = refusal(s, f, k, u, new);
    if n != 0 {
        clear_tables(statements, facts, kept, supports);
        return n;
    }
    copy_tables(s, f, k, u, statements, facts, kept, supports);
    0
}
