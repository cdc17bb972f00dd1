// Calls, encoded in lent words, run one after the other over lent tables, with their replies written to lent words.
#![tactic(auto)]

ghost use Rattle.std.specs.Prelude.{◌≡◌, ◌+◌, ◌*◌, ◌/◌, ◌≤◌, length};
ghost use Rattle.std.proofs.lemmas.List.Edits.{sets};
ghost use Rattle.spec.specs.Tables.{tables};
ghost use Rattle.spec.specs.Ledger.{calls};
ghost use Rattle.spec.specs.Demand3.{store_entries};
ghost use Rattle.ledger_call.specs.inside.Calls.{encoded, reply_words};

use ledger_call::run_call;

// Writes the words of a reply from index at on.
fn write_reply(words: [u32; 5], at: usize, replies: &mut [u32])
    requires { at + 5 ≤ length replies.old }
    ensures { replies.new ≡ sets replies.old at words }
{
    replies[at] = words[0];
    replies[at + 1] = words[1];
    replies[at + 2] = words[2];
    replies[at + 3] = words[3];
    replies[at + 4] = words[4];
}

// Runs the calls of some words in their order, over the tables as they are, and writes what each gives.
pub fn run_calls(
    statements: &mut [u32],
    facts: &mut [u32],
    kept: &mut [u32],
    supports: &mut [u16],
    words: &[u32],
    bytes: &[u8],
    replies: &mut [u32],
)
    requires { length words.now / 4 * 5 ≤ length replies.old }
    ensures supports_after { tables statements.new facts.new kept.new supports.new ≡ (calls store_entries (encoded words.now bytes.now) (tables statements.old facts.old kept.old supports.old)).after }
    ensures replies_after { replies.new ≡ sets replies.old 0 (reply_words (calls store_entries (encoded words.now bytes.now) (tables statements.old facts.old kept.old supports.old)).given) }
{
    for i in 0..words.len() / 4 {
        let at = i * 4;
        let reply = run_call(
            statements,
            facts,
            kept,
            supports,
            bytes,
            words[at],
            words[at + 1],
            words[at + 2],
            words[at + 3],
        );
        write_reply(reply, i * 5, replies);
    }
}
