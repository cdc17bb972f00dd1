// The column of a term, looked up in words that hold the closed pairs.
#![tactic(auto)]

ghost use Rattle.closure_words.specs.inside.Layout.{Shaped};
ghost use Rattle.closure_search.specs.inside.Search.{ColumnFor};

use closure_words::{TERMS, end_column, first_column};

// The column of a property that has the term. The terms of its columns ascend.
#[tactic(auto, using(crate::proofs::SearchLaws::first_few, crate::proofs::SearchLaws::end_few))]
pub fn column_for(closure: &[u32], property: u32, object: u32) -> Option<usize>
    requires { Shaped closure.now }
    ensures { ColumnFor closure.now property object result }
{
    let first = first_column(closure, property);
    let end = end_column(closure, property);
    let terms = &closure[TERMS + first..TERMS + end];
    match terms.binary_search(&object) {
        Ok(at) => Some(first + at),
        Err(_) => None,
    }
}
