// The entries of a section, run in order (document 01, "Deliveries").
#![tactic(auto)]

ghost use Rattle.std.specs.Prelude.{◌≡◌, true};
ghost use Rattle.spec.specs.Tables.{tables, are_formed};
ghost use Rattle.spec.specs.Lists.{all};
ghost use Rattle.spec.specs.inside.Laid.{FormedStore};
ghost use Rattle.spec.specs.declared.Change.TheVariants.{Addition};
ghost use Rattle.spec.specs.Updates.{update};
ghost use Rattle.spec.specs.Deliveries.{run_entries};
ghost use Rattle.spec.specs.inside.Pairs.{progress};
ghost use Rattle.delivery_section.specs.inside.Running.{keeps_formed, section, Next};

use delivery_tally::{refused, tallied};
use spec::{Change, Tally};

// Runs the entries of section k over a well-formed store, which they keep so.
pub fn run_section(
    statements: &mut [u32],
    facts: &mut [u32],
    kept: &mut [u32],
    supports: &mut [u16],
    bytes: &[u8],
    k: usize,
    change: Change,
    counted: Tally,
) -> Tally
    requires formed_store { FormedStore statements.old facts.old kept.old supports.old }
    requires next { Next bytes.now k counted }
    requires k_value { all (keeps_formed change) (section bytes.now k) ≡ true }
    ensures result_after { progress (tables statements.new facts.new kept.new supports.new) result ≡ run_entries (update change) (section bytes.now k) (progress (tables statements.old facts.old kept.old supports.old) counted) }
    ensures formed_store_2 { FormedStore statements.new facts.new kept.new supports.new }
{
    let start = delivery_format::section_start(bytes, k);
    let entries = delivery_format::short_at(bytes, start);
    let mut sum = counted;
    for i in 0..entries {
        let triple = delivery_format::entry_at(bytes, start + 2 + i * delivery_format::ENTRY_BYTES);
        let answer = store::update_formed(statements, facts, kept, supports, change, triple);
        sum = tallied(sum, answer);
    }
    sum
}

// Runs the entries of section k, which are added, over a store that is known to be well formed or not. In the second case each is
// refused.
pub fn add_section(
    statements: &mut [u32],
    facts: &mut [u32],
    kept: &mut [u32],
    supports: &mut [u16],
    bytes: &[u8],
    k: usize,
    formed: bool,
    counted: Tally,
) -> Tally
    requires formed_value { formed ≡ are_formed (tables statements.old facts.old kept.old supports.old) }
    requires next { Next bytes.now k counted }
    ensures { progress (tables statements.new facts.new kept.new supports.new) result ≡ run_entries (update Addition) (section bytes.now k) (progress (tables statements.old facts.old kept.old supports.old) counted) }
{
    if !formed {
        let start = delivery_format::section_start(bytes, k);
        return refused(counted, delivery_format::short_at(bytes, start));
    }
    run_section(
        statements,
        facts,
        kept,
        supports,
        bytes,
        k,
        Change::Addition,
        counted,
    )
}
