// The hashes of texts, and the slots of an index where searches begin.
#![tactic(auto)]

ghost use Rattle.std.specs.Prelude.{◌≡◌, ◌+◌, ◌≤◌, ◌<◌, length, take, drop};
ghost use Rattle.dictionary_hash.specs.inside.Hashes.{hash_on, hash_from, slot_of};

// The multiplier of the hash of a text, which has 32 bits; and the one that spreads hashes over the slots.
const HASH_STEP: u64 = 16777619;

const HASHES: u64 = 4294967296;

const SPREAD: u64 = 2654435769;

// The hash of a text that goes on by a byte.
pub fn hash_on(h: u64, b: u8) -> u64
    requires { h < 4294967296 }
    ensures value { result ≡ hash_on h b }
    ensures upper_bound { result < 4294967296 }
{
    (h * HASH_STEP + b as u64) % HASHES
}

// The hash of a text with a hash that goes on by the n bytes from an index on.
pub fn hash_from(before: u64, bytes: &[u8], at: usize, n: usize) -> u64
    requires before_bound { before < 4294967296 }
    requires n_in_bounds { at + n ≤ length bytes.now }
    ensures value { result ≡ hash_from before (take n (drop at bytes.now)) }
    ensures upper_bound { result < 4294967296 }
{
    let mut h = before;
    for b in &bytes[at..at + n] {
        h = hash_on(h, *b);
    }
    h
}

// The slot at which the search for a text with a hash begins.
pub fn slot_of(h: u64) -> usize
    requires { h < 4294967296 }
    ensures { result ≡ slot_of h }
{
    (h * SPREAD % HASHES / 65536) as usize
}
