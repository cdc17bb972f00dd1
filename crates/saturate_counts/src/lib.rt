// What the facts about a thing add to the counts of the columns: the classes that they give it, and the properties that they lead to.
#![tactic(auto)]

ghost use Rattle.std.specs.Prelude.{◌≡◌, cond, ℕ, ◌+◌, ◌-◌, ◌*◌, ◌^◌, ◌≤◌, ◌<◌, length, get_or};
ghost use Rattle.saturate_schema.specs.inside.Squares.{at};
ghost use Rattle.saturate_schema.specs.inside.Groups.{Statements};
ghost use Rattle.saturate_schema.specs.inside.Compiled.{subject_at, either, own_bit};
ghost use Rattle.spec.specs.Tables.{count};
ghost use Rattle.saturate_index.specs.inside.Index.{object_of, Index, Once};
ghost use Rattle.saturate_counts.specs.inside.Prepared.{Square, Facts};
ghost use Rattle.saturate_counts.specs.inside.Supported.{Range, CountsOf};
ghost use Rattle.saturate_counts.specs.inside.Counting.{Added, either_at, other_bit, Summed};

use saturate_schema::{MOST_COLUMNS, Sizes};
use table::{object_at, property_at, subject_at};
use terms::Term;

// A thing, with its facts: those between first and end, of which it is the subject, and those of which it is the object, at the places
// of the index between from and to.
#[derive(Clone, Copy)]
pub struct Subject {
    pub term: u32,
    pub first: usize,
    pub end: usize,
    pub from: usize,
    pub to: usize,
}

// The bit a, or else b where the column is a class.
fn either_bit(a: u8, b: u8, class: bool) -> u8
    ensures { result ≡ cond class (either a b) a }
{
    if class { if a == 1 { 1 } else { b } } else { a }
}

// Adds row g of a square to the counts of the columns below end. No branch, so that many columns are done at once.
fn add_row(counts: &mut [u32], square: &[u8], g: usize, end: usize)
    requires g_in_bounds { (g * 512 + 512 ≤ length square.now) × (end ≤ 512) × (end ≤ length counts.old) }
    requires by_index { (c : ℕ) → c < end → get_or counts.old c 0 + at square.now g c < 2 ^ 32 }
    ensures { Added counts.old counts.new (λ c. at square.now g c) end }
{
    for c in 0..end {
        counts[c] += u32::from(square[g * MOST_COLUMNS + c]);
    }
}

// Adds 1 to the count of each column below end that row g of the square of domains has, or, for the classes, of the square of ranges:
// a fact whose object is its subject counts once.
fn add_either(counts: &mut [u32], domains: &[u8], ranges: &[u8], g: usize, nc: usize, end: usize)
    requires g_in_bounds { (g * 512 + 512 ≤ length domains.now) × (g * 512 + 512 ≤ length ranges.now) × (end ≤ 512) × (end ≤ length counts.old) }
    requires by_index { (c : ℕ) → c < end → get_or counts.old c 0 + either_at domains.now ranges.now nc g c < 2 ^ 32 }
    ensures { Added counts.old counts.new (either_at domains.now ranges.now nc g) end }
{
    for c in 0..end {
        counts[c] += u32::from(either_bit(
            domains[g * MOST_COLUMNS + c],
            ranges[g * MOST_COLUMNS + c],
            c < nc,
        ));
    }
}

// Adds what fact y, of the subject x, gives x and leads to.
fn count_fact(
    statements: &[u32],
    sizes: Sizes,
    f: &[u32],
    y: usize,
    x: u32,
    domains: &[u8],
    ranges: &[u8],
    counts: &mut [u32],
)
    requires statements { Statements statements.now sizes.statements }
    requires square { Square statements.now sizes.statements sizes.columns domains.now }
    requires square_2 { Square statements.now sizes.statements sizes.columns ranges.now }
    requires y_in_bounds { (y * 3 + 3 < length f.now) × (sizes.columns ≤ 512) × (sizes.columns ≤ length counts.old) }
    requires by_index { (c : ℕ) → c < sizes.columns → get_or counts.old c 0 + 1 < 2 ^ 32 }
    ensures { Added counts.old counts.new (λ c. own_bit statements.now sizes.statements sizes.classes domains.now ranges.now f.now x c y) sizes.columns }
{
    let m = sizes.statements;
    let nc = sizes.classes;
    let ns = sizes.columns;
    let p = property_at(f, y);
    let o = object_at(f, y);
    if p == Term::TYPE {
        let a = saturate_groups::class_group(statements, m, o);
        if a < m {
            add_row(counts, domains, a, ns);
        }
        return;
    }
    let g = saturate_groups::property_group(statements, m, p);
    if g < m {
        if o == x {
            add_either(counts, domains, ranges, g, nc, ns);
        } else {
            add_row(counts, domains, g, ns);
        }
    }
}

// Adds what the facts of a subject give it and lead to.
fn count_subject(
    statements: &[u32],
    sizes: Sizes,
    f: &[u32],
    own: Subject,
    domains: &[u8],
    ranges: &[u8],
    counts: &mut [u32],
)
    requires statements { Statements statements.now sizes.statements }
    requires square { Square statements.now sizes.statements sizes.columns domains.now }
    requires square_2 { Square statements.now sizes.statements sizes.columns ranges.now }
    requires first_le_end { (own.first ≤ own.end) × (own.end * 3 < length f.now) × (sizes.columns ≤ 512) × (sizes.columns ≤ length counts.old) }
    requires by_index { (c : ℕ) → c < sizes.columns → get_or counts.old c 0 + (own.end - own.first) < 2 ^ 32 }
    ensures { Summed counts.old counts.new (λ c y. own_bit statements.now sizes.statements sizes.classes domains.now ranges.now f.now own.term c y) sizes.columns own.first own.end }
{
    for y in own.first..own.end {
        count_fact(statements, sizes, f, y, own.term, domains, ranges, counts);
    }
}

// Adds what fact y, whose object is x, gives x by range, where its subject is another.
fn count_other(
    statements: &[u32],
    sizes: Sizes,
    f: &[u32],
    y: usize,
    x: u32,
    ranges: &[u8],
    counts: &mut [u32],
)
    requires statements { Statements statements.now sizes.statements }
    requires square { Square statements.now sizes.statements sizes.columns ranges.now }
    requires y_in_bounds { (y * 3 + 3 < length f.now) × (sizes.classes ≤ sizes.columns) × (sizes.columns ≤ 512) × (sizes.columns ≤ length counts.old) }
    requires by_index { (c : ℕ) → c < sizes.classes → get_or counts.old c 0 + 1 < 2 ^ 32 }
    ensures { Added counts.old counts.new (λ c. other_bit statements.now sizes.statements ranges.now f.now x c y) sizes.classes }
{
    let m = sizes.statements;
    if subject_at(f, y) == x {
        return;
    }
    let g = saturate_groups::property_group(statements, m, property_at(f, y));
    if g < m {
        add_row(counts, ranges, g, sizes.classes);
    }
}

// Adds what the facts whose object is a thing give it by range.
fn count_object(
    statements: &[u32],
    sizes: Sizes,
    f: &[u32],
    ix: &[u32],
    own: Subject,
    ranges: &[u8],
    counts: &mut [u32],
)
    requires statements { Statements statements.now sizes.statements }
    requires square { Square statements.now sizes.statements sizes.columns ranges.now }
    requires from_le_to { (own.from ≤ own.to) × (own.to ≤ length ix.now) × (sizes.classes ≤ sizes.columns) × (sizes.columns ≤ 512) × (sizes.columns ≤ length counts.old) }
    requires by_index { (a : ℕ) → a < own.to → get_or ix.now a 0 * 3 + 3 < length f.now }
    requires by_index_2 { (c : ℕ) → c < sizes.classes → get_or counts.old c 0 + (own.to - own.from) < 2 ^ 32 }
    ensures { Summed counts.old counts.new (λ c a. other_bit statements.now sizes.statements ranges.now f.now own.term c (get_or ix.now a 0)) sizes.classes own.from own.to }
{
    for y in &ix[own.from..own.to] {
        count_other(statements, sizes, f, *y as usize, own.term, ranges, counts);
    }
}

// The counts of the columns for a thing, from its facts.
pub fn counts_of(
    statements: &[u32],
    sizes: Sizes,
    domains: &[u8],
    ranges: &[u8],
    f: &[u32],
    ix: &[u32],
    own: Subject,
) -> [u32; MOST_COLUMNS]
    requires statements { Statements statements.now sizes.statements }
    requires square { Square statements.now sizes.statements sizes.columns domains.now }
    requires square_2 { Square statements.now sizes.statements sizes.columns ranges.now }
    requires classes_le_columns { (sizes.classes ≤ sizes.columns) × (sizes.columns ≤ 512) }
    requires facts { Facts f.now (count f.now) }
    requires index { Index f.now ix.now (count f.now) }
    requires once { Once (count f.now) ix.now }
    requires range { Range (subject_at f.now) (count f.now) own.term own.first own.end }
    requires range_2 { Range (object_of f.now ix.now) (count f.now) own.term own.from own.to }
    ensures { CountsOf statements.now sizes.statements domains.now ranges.now sizes.classes sizes.columns f.now (count f.now) own.term result }
{
    let mut counts = [0; MOST_COLUMNS];
    count_subject(statements, sizes, f, own, domains, ranges, &mut counts);
    count_object(statements, sizes, f, ix, own, ranges, &mut counts);
    counts
}
