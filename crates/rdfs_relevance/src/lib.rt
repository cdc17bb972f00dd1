// What can be asked of a property or a class, and a memory of the answers: each is remembered at a place that its question determines.
#![tactic(auto)]

ghost use Rattle.std.specs.Prelude.{◌≡◌, true, List, ◌+◌, ◌*◌, ◌≤◌, ◌<◌, length, get_or, eqb};
ghost use Rattle.spec.specs.declared.Triple.{Triple};
ghost use Rattle.table.specs.inside.Bounds.{Tells};
ghost use Rattle.rdfs_relevance.specs.inside.Targets.{Led, Remembers};

// What is asked of a word and a target. Whether the property leads to the property target.
pub const PROPERTY: u32 = 1;

// Whether a fact of the property gives its subject the class target.
pub const SUBJECT_CLASS: u32 = 2;

// Whether a thing of the class is of the class target.
pub const CLASS: u32 = 3;

// Whether a fact of the property gives its object, which is no literal, the class target.
pub const OBJECT_CLASS: u32 = 4;

// Whether a fact of the property gives its object, which is no literal, a class at all. The target is 0.
pub const ANY_OBJECT_CLASS: u32 = 5;

// How many answers are remembered at most, of four words each: word, question, target and answer.
const PLACES: u64 = 4096;

// Leaves the bits from 20 on.
const UPPER: u64 = 1048576;

// Where the answer to a question is remembered first.
pub fn first_place(asked: u32, word: u32, target: u32) -> usize
    ensures { result < 4096 }
{
    let n = word as u64 + target as u64 * 37 + asked as u64 * 677;
    (n % PLACES) as usize
}

// Where it is remembered if another answer is there: by the upper bits of products, which spread.
pub fn second_place(asked: u32, word: u32, target: u32) -> usize
    ensures { result < 4096 }
{
    let n = word as u64 * 1640531527 + target as u64 * 1013904223 + asked as u64 * 362437;
    (n / UPPER % PLACES) as usize
}

// Whether a place has the answer to a question.
pub fn is_at(memory: &[u32], place: usize, asked: u32, word: u32, target: u32) -> bool
    requires { place * 4 + 4 ≤ length memory.now }
    ensures { result ≡ true → (get_or memory.now (place * 4) 0 ≡ word) × ((get_or memory.now (place * 4 + 1) 0 ≡ asked) × (get_or memory.now (place * 4 + 2) 0 ≡ target)) }
{
    let at = place * 4;
    (memory[at] == word) & (memory[at + 1] == asked) & (memory[at + 2] == target)
}

// The answer at a place.
pub fn answer_at(memory: &[u32], place: usize) -> bool
    requires { place * 4 + 4 ≤ length memory.now }
    ensures { result ≡ eqb (get_or memory.now (place * 4 + 3) 0) 1 }
{
    let at = place * 4;
    memory[at + 3] == 1
}

// Remembers the answer to a question at a place.
pub fn remember(memory: &mut [u32], place: usize, asked: u32, word: u32, target: u32, answer: bool)
    requires place_bound { place < 4096 }
    requires memory_len { length memory.old ≡ 16384 }
    ensures { (S : List Triple) → Tells answer (Led S asked word target) → Remembers S memory.old → Remembers S memory.new }
{
    let at = place * 4;
    memory[at] = word;
    memory[at + 1] = asked;
    memory[at + 2] = target;
    memory[at + 3] = if answer { 1 } else { 0 };
}
