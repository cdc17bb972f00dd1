// The squares of the compiled statements: bits that say which columns each statement's subject leads to.
#![tactic(auto)]

ghost use Rattle.std.specs.Prelude.{◌≡◌, ◌⊎◌, ◌↔◌, ℕ, ◌+◌, ◌*◌, ◌≤◌, ◌<◌, length, get_or};
ghost use Rattle.table.specs.inside.Bounds.{Tells};
ghost use Rattle.saturate_schema.specs.inside.Nodes.{edges, Columns, word};
ghost use Rattle.saturate_schema.specs.inside.Squares.{at, Bits, United, Gained, Leads, Extended, Closed, Cleared};

use saturate_schema::{MOST_COLUMNS, applies, column, first_statement, object_node, subject_node};

// The bit b, or 1 where the bit g is 1.
fn joined(g: u8, b: u8) -> u8
    ensures { (g ≡ 1 → result ≡ 1) × ((g ≡ 1 → ⊥) → result ≡ b) }
{
    if g == 1 { 1 } else { b }
}

// Row a gets what gain has. No branch, so that many bits are done at once.
fn unite(square: &mut [u8], a: usize, gain: &[u8], ns: usize)
    requires { (a * 512 + 512 ≤ length square.old) × (ns ≤ 512) × (ns ≤ length gain.now) }
    ensures { United square.old square.new gain.now a ns }
{
    for c in 0..ns {
        square[a * MOST_COLUMNS + c] = joined(gain[c], square[a * MOST_COLUMNS + c]);
    }
}

// Whether row i is of the node s or leads to it; ss is its column.
fn leads(statements: &[u32], square: &[u8], i: usize, s: u64, ss: usize, ns: usize) -> bool
    requires { (i * 3 + 3 < length statements.now) × (i * 512 + 512 ≤ length square.now) × (ns ≤ 512) }
    ensures { Tells result (Leads statements.now (at square.now) s ss ns i) }
{
    if subject_node(statements, i) == s {
        return true;
    }
    if ss < ns {
        return square[i * MOST_COLUMNS + ss] == 1;
    }
    false
}

// Each row that is of the node s or leads to it gets what gain has.
fn close_statement(
    statements: &[u32],
    m: usize,
    square: &mut [u8],
    gain: &[u8],
    s: u64,
    ss: usize,
    ns: usize,
)
    requires { (m * 3 < length statements.now) × (m * 512 ≤ length square.old) × (ns ≤ 512) × (ns ≤ length gain.now) }
    ensures extended { Extended statements.now m (at square.old) (at square.new) (word gain.now) s ss ns }
    ensures bits { Bits square.old → Bits square.new }
{
    for i in 0..m {
        if leads(statements, square, i, s, ss, ns) {
            unite(square, i, gain, ns);
        }
    }
}

// Whether column c is so, or row go has it.
fn gain_bit(square: &[u8], go: usize, m: usize, so: usize, c: usize) -> u8
    requires { (m * 512 ≤ length square.now) × (c < 512) }
    ensures { (result ≡ 1) ↔ ((c ≡ so) ⊎ ((go < m) × (at square.now go c ≡ 1))) }
{
    if c == so {
        return 1;
    }
    if go < m {
        return square[go * MOST_COLUMNS + c];
    }
    0
}

// What a row that leads to a statement gains: its end, column so, and what row go of that end has.
fn gains(square: &[u8], gain: &mut [u8], go: usize, m: usize, so: usize, ns: usize)
    requires { (m * 512 ≤ length square.now) × (ns ≤ 512) × (ns ≤ length gain.old) }
    ensures { Gained (at square.now) (word gain.new) go m so ns }
{
    for c in 0..ns {
        gain[c] = gain_bit(square, go, m, so, c);
    }
}

// Makes an empty square say which columns each statement's subject leads to by one or more of the statements 2, 3 and via.
pub fn close(
    statements: &[u32],
    m: usize,
    columns: &[u64],
    ns: usize,
    via: u32,
    square: &mut [u8],
    gain: &mut [u8],
)
    requires columns { Columns statements.now m columns.now ns }
    requires m_in_bounds { (m * 3 < length statements.now) × (m * 512 ≤ length square.old) × (ns ≤ length columns.now) × (ns ≤ length gain.old) }
    requires by_index { (i c : ℕ) → at square.old i c ≡ 0 }
    ensures closed { Closed statements.now m columns.now ns (at square.new) (edges statements.now via m) }
    ensures bits { Bits square.new }
{
    for j in 0..m {
        if applies(statements, j, via) {
            let s = subject_node(statements, j);
            let e = object_node(statements, j);
            let ss = column(columns, ns, s);
            let so = column(columns, ns, e);
            let go = first_statement(statements, m, e);
            gains(square, gain, go, m, so, ns);
            close_statement(statements, m, square, gain, s, ss, ns);
        }
    }
}

// Clears in each row the bit of its own node: what it leads to then is another.
pub fn clear_own(statements: &[u32], m: usize, columns: &[u64], ns: usize, square: &mut [u8])
    requires m_in_bounds { (m * 3 < length statements.now) × (m * 512 ≤ length square.old) × (ns ≤ length columns.now) × (ns ≤ 512) }
    requires by_index { (a b : ℕ) → a < ns → b < ns → get_or columns.now a 0 ≡ get_or columns.now b 0 → a ≡ b }
    ensures { Cleared statements.now columns.now ns square.old square.new m }
{
    for i in 0..m {
        let c = column(columns, ns, subject_node(statements, i));
        if c < ns {
            square[i * MOST_COLUMNS + c] = 0;
        }
    }
}
