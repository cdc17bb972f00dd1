// Deliveries run over a store in lent tables (document 01, "Deliveries").
#![tactic(auto)]

ghost use Rattle.std.specs.Prelude.{◌≡◌, true};
ghost use Rattle.spec.specs.inside.Laid.{FormedStore};
ghost use Rattle.spec.specs.Tables.{tables};
ghost use Rattle.spec.specs.Updates.{update};
ghost use Rattle.spec.specs.Deliveries.{are_sections_right, tally, run_message, delivered, deliver};
ghost use Rattle.spec.specs.inside.Pairs.{progress};
ghost use Rattle.spec.specs.computed.Decoded.{read, is_whole};

use delivery_section::{add_section, run_section};
use delivery_tally::none;
use delivery_withdrawals::withdraw_facts;
use spec::{Change, Delivered, Tally};

// Runs the four sections of a whole delivery, whose entries are right for them, over a well-formed store: statements withdrawn,
// facts withdrawn, statements added, facts added.
fn run_message(
    statements: &mut [u32],
    facts: &mut [u32],
    kept: &mut [u32],
    supports: &mut [u16],
    bytes: &[u8],
) -> Tally
    requires formed_store { FormedStore statements.old facts.old kept.old supports.old }
    requires bytes_value { is_whole bytes.now ≡ true }
    requires bytes_value_2 { are_sections_right (read bytes.now) ≡ true }
    ensures { progress (tables statements.new facts.new kept.new supports.new) result ≡ run_message update (read bytes.now) (progress (tables statements.old facts.old kept.old supports.old) (tally 0 0 0)) }
{
    let first = run_section(
        statements,
        facts,
        kept,
        supports,
        bytes,
        0,
        Change::Withdrawal,
        none(),
    );
    let second = withdraw_facts(statements, facts, kept, supports, bytes, 1, first);
    let formed = second.formed;
    let counted = second.counted;
    let third = add_section(statements, facts, kept, supports, bytes, 2, formed, counted);
    add_section(statements, facts, kept, supports, bytes, 3, formed, third)
}

// The result of a delivery that is refused whole: delivery number and tallies 0.
fn refuse(number: u32) -> Delivered
    ensures { result ≡ delivered number 0 (tally 0 0 0) }
{
    Delivered {
        refusal: number,
        number: 0,
        applied: 0,
        idle: 0,
        refused: 0,
    }
}

// Takes a delivery: questions 1, 9, 10 and 11 in this order, of which the first "no" refuses it whole and changes no word. Then its
// entries run in order, each asked as a lone update would be.
pub fn deliver(
    statements: &mut [u32],
    facts: &mut [u32],
    kept: &mut [u32],
    supports: &mut [u16],
    bytes: &[u8],
) -> Delivered
    ensures { (result, tables statements.new facts.new kept.new supports.new) ≡ deliver (tables statements.old facts.old kept.old supports.old) bytes.now }
{
    if !table_check::is_store(statements, facts, kept, supports) {
        return refuse(1);
    }
    if !delivery_walk::is_whole(bytes) {
        return refuse(9);
    }
    if !delivery_format::are_sections_right(bytes) {
        return refuse(10);
    }
    if !delivery_number::is_number_right(bytes) {
        return refuse(11);
    }
    let counted = run_message(statements, facts, kept, supports, bytes);
    Delivered {
        refusal: 0,
        number: delivery_number::number(bytes),
        applied: counted.applied,
        idle: counted.idle,
        refused: counted.refused,
    }
}
