// Question 1 for a dictionary: whether lent bytes are one, and how far it is filled.
#![tactic(auto)]

ghost use Rattle.std.specs.Prelude.{◌≡◌, ◌≤◌, length, drop};
ghost use Rattle.spec.specs.Tables.{are_zero};
ghost use Rattle.dictionary_walk.specs.inside.Walked.{Walked};
ghost use Rattle.dictionary_check.specs.inside.Checked.{IsChecked};

use dictionary_bytes::Filled;
use dictionary_distinct::are_distinct;
use dictionary_walk::walk;

// Whether the bytes from an index on are all zero. The loop has no exit, so that many bytes are read at once.
fn are_bytes_zero(bytes: &[u8], from: usize) -> bool
    requires { from ≤ length bytes.now }
    ensures { result ≡ are_zero (drop from bytes.now) }
{
    let mut ok = true;
    for b in &bytes[from..] {
        ok = ok & (*b == 0);
    }
    ok
}

// Asks what is left once each entry is right by itself: that zeros follow, and that the texts differ.
fn settle(dictionary: &[u8], f: Filled) -> Option<Filled>
    requires { Walked dictionary.now f }
    ensures { IsChecked dictionary.now result }
{
    if !are_bytes_zero(dictionary, f.end) {
        return None;
    }
    if !are_distinct(dictionary, f.end) {
        return None;
    }
    Some(f)
}

// Question 1 for a dictionary: how far it is filled, or nothing where the bytes are none.
pub fn check_dictionary(dictionary: &[u8]) -> Option<Filled>
    ensures { IsChecked dictionary.now result }
{
    settle(dictionary, walk(dictionary)?)
}
