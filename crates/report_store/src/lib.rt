// The empty store of a program, of the capacities that document 01 names ("Shelf examples").
#![tactic(auto)]

ghost use Rattle.std.specs.Prelude.{◌≡◌, replicate};

// How many statements the store of a program holds,
const STATEMENTS: usize = 512;

// how many facts,
const FACTS: usize = 1024;

// and how many kept facts.
const KEPT: usize = 4096;

// No statements, and room for as many.
pub fn no_statements() -> [u32; STATEMENTS * 3 + 1]
    ensures { result ≡ replicate 1537 0 }
{
    [0u32; STATEMENTS * 3 + 1]
}

// No facts.
pub fn no_facts() -> [u32; FACTS * 3 + 1]
    ensures { result ≡ replicate 3073 0 }
{
    [0u32; FACTS * 3 + 1]
}

// No kept facts.
pub fn no_kept() -> [u32; KEPT * 3 + 1]
    ensures { result ≡ replicate 12289 0 }
{
    [0u32; KEPT * 3 + 1]
}

// No supports.
pub fn no_supports() -> [u16; KEPT]
    ensures { result ≡ replicate 4096 0 }
{
    [0u16; KEPT]
}
