// The rooms of the program `kept_ntriples`: for what it prints, and for the store, which is empty; its statements are those of `report_store`.
#![tactic(auto)]

ghost use Rattle.std.specs.Prelude.{◌≡◌, length, replicate};
ghost use Rattle.report_text.specs.inside.Appended.{head_room};

// The most bytes of kept facts that are printed,
const OUTPUT_ROOM: usize = 3145728;

// and those of a line on standard error.
const ERRORS_ROOM: usize = 90;

// How many facts the store holds: as many as a delivery has entries,
const FACTS: usize = 5460;

// and how many kept facts.
const KEPT: usize = 32768;

// Room for the lines of kept facts.
pub fn output_buffer() -> [u8; OUTPUT_ROOM]
    ensures { 3145728 ≡ length result }
{
    [0u8; OUTPUT_ROOM]
}

// Room for a line on standard error.
pub fn errors_buffer() -> [u8; ERRORS_ROOM]
    ensures { head_room ≡ length result }
{
    [0u8; ERRORS_ROOM]
}

// No facts.
pub fn no_facts() -> [u32; FACTS * 3 + 1]
    ensures { result ≡ replicate 16381 0 }
{
    [0u32; FACTS * 3 + 1]
}

// No kept facts.
pub fn no_kept() -> [u32; KEPT * 3 + 1]
    ensures { result ≡ replicate 98305 0 }
{
    [0u32; KEPT * 3 + 1]
}

// No supports.
pub fn no_supports() -> [u16; KEPT]
    ensures { result ≡ replicate 32768 0 }
{
    [0u16; KEPT]
}
