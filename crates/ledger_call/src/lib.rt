// One call, encoded in lent words, run over lent tables by the store's own entries (document 01, "The ledger").
#![tactic(auto)]

ghost use Rattle.std.specs.Prelude.{◌≡◌, take, drop};
ghost use Rattle.spec.specs.Tables.{tables};
ghost use Rattle.spec.specs.Deliveries.{deliver};
ghost use Rattle.spec.specs.Ledger.{answered, resulted};
ghost use Rattle.ledger_call.specs.inside.Calls.{change_of, call_of, given_words, worded_call};

use spec::{Answer, Change, Delivered, Triple};

// The kinds of calls that are updates. Any other is a delivery.
const ADDITION: u32 = 0;

const WITHDRAWAL: u32 = 1;

// The words of an update's answer.
fn update_words(answer: Answer) -> [u32; 5]
    ensures { result ≡ given_words (answered answer) }
{
    match answer {
        Answer::Applied => [0, 0, 0, 0, 0],
        Answer::Idle => [100, 0, 0, 0, 0],
        Answer::Refused(n) => [n, 0, 0, 0, 0],
    }
}

// The words of a delivery's result.
fn delivery_words(d: Delivered) -> [u32; 5]
    ensures { result ≡ given_words (resulted d) }
{
    [d.refusal, d.number, d.applied, d.idle, d.refused]
}

// Delivers the bytes from index from on, size of them or as many as there are.
fn deliver_part(
    statements: &mut [u32],
    facts: &mut [u32],
    kept: &mut [u32],
    supports: &mut [u16],
    bytes: &[u8],
    from: u32,
    size: u32,
) -> Delivered
    ensures { (result, tables statements.new facts.new kept.new supports.new) ≡ deliver (tables statements.old facts.old kept.old supports.old) (take size (drop from bytes.now)) }
{
    let start = (from as usize).min(bytes.len());
    let len = (size as usize).min(bytes.len() - start);
    delivery_run::deliver(
        statements,
        facts,
        kept,
        supports,
        &bytes[start..start + len],
    )
}

// The update that a kind of call asks for.
fn change_of(kind: u32) -> Change
    ensures { result ≡ change_of kind }
{
    if kind == ADDITION {
        return Change::Addition;
    }
    Change::Withdrawal
}

// Runs one call of four words, and gives the words of its reply.
pub fn run_call(
    statements: &mut [u32],
    facts: &mut [u32],
    kept: &mut [u32],
    supports: &mut [u16],
    bytes: &[u8],
    kind: u32,
    a: u32,
    b: u32,
    c: u32,
) -> [u32; 5]
    ensures { (result, tables statements.new facts.new kept.new supports.new) ≡ worded_call (tables statements.old facts.old kept.old supports.old) (call_of bytes.now kind a b c) }
{
    if kind <= WITHDRAWAL {
        let triple = Triple {
            subject: a,
            property: b,
            object: c,
        };
        let change = change_of(kind);
        return update_words(store::update(statements, facts, kept, supports, change, triple));
    }
    delivery_words(deliver_part(statements, facts, kept, supports, bytes, a, b))
}
