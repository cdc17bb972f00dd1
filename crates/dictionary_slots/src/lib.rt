// The slots of an index of no entries.
#![tactic(auto)]

ghost use Rattle.std.specs.Prelude.{◌≡◌, length};
ghost use Rattle.dictionary_index.specs.inside.Index.{AreZero};

use dictionary_index::SLOTS;

// An index that leads to no entry.
pub fn no_slots() -> [u32; SLOTS]
    ensures { (length result ≡ 65536) × AreZero result }
{
    [0u32; SLOTS]
}
