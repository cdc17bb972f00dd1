// By what number words are refused before a question is answered (document 01, "Questions and their rewriting").
#![tactic(auto)]

ghost use Rattle.std.specs.Prelude.{◌≡◌};
ghost use Rattle.query_refusal.specs.inside.Refusing.{refusal_of};

use query::questions::{is_head_bound, is_question};

// The first of the questions 6 and 7 that refuses words; 0 where neither does.
pub fn refusal(question: &[u32]) -> u32
    ensures { result ≡ refusal_of question.now }
{
    if !is_question(question) {
        return 6;
    }
    if !is_head_bound(question) {
        return 7;
    }
    0
}
