// Answers, deliveries' results and replies as the numbers that the exported library gives (include/families.h).
#![tactic(auto)]

ghost use Rattle.std.specs.Prelude.{◌≡◌};
ghost use Rattle.spec.specs.Outputs.{reply_number, reply_count};
ghost use Rattle.spec.specs.Updates.{answer_number};
ghost use Rattle.spec.specs.Exported.{result_words};

use spec::{Answer, Delivered, Reply};

// The number of an answer.
pub fn answer_number(answer: Answer) -> u32
    ensures { result ≡ answer_number answer }
{
    match answer {
        Answer::Applied => 0,
        Answer::Idle => 100,
        Answer::Refused(n) => n,
    }
}

// Writes what a delivery gave: its number and tallies. Returns 0 or the number that refused it.
pub fn write_result(delivered: Delivered, res: &mut [u32; 4]) -> u32
    ensures { (result ≡ delivered.refusal) × (res.new ≡ result_words delivered) }
{
    *res = [
        delivered.number,
        delivered.applied,
        delivered.idle,
        delivered.refused,
    ];
    delivered.refusal
}

// The number of a reply, with how many rows or bytes it gave written to count, and 0 there where it is a refusal.
pub fn reply_number(reply: Reply, count: &mut u64) -> u32
    ensures { (result ≡ reply_number reply) × (count.new ≡ reply_count reply) }
{
    match reply {
        Ok(n) => {
            *count = n as u64;
            0
        }
        Err(n) => {
            *count = 0;
            n
        }
    }
}
