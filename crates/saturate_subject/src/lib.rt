// The rows of one subject, worked out from its facts, from the facts of which it is the object, and from the compiled statements, and put in
// their order.
#![tactic(auto)]

ghost use Rattle.std.specs.Prelude.{◌≡◌, ℕ, ◌+◌, ◌*◌, ◌^◌, ◌≤◌, ◌<◌, length, false};
ghost use Rattle.spec.specs.Terms.{triple, is_literal};
ghost use Rattle.spec.specs.Tables.{count};
ghost use Rattle.spec.specs.Saturation.{Kept};
ghost use Rattle.spec.specs.inside.Counts.{Counts};
ghost use Rattle.saturate_merge.specs.inside.Output.{output, put_all};
ghost use Rattle.saturate_merge.specs.inside.Between.{between};
ghost use Rattle.saturate_schema.specs.inside.Groups.{Statements};
ghost use Rattle.saturate_schema.specs.inside.Compiled.{subject_at, property_at};
ghost use Rattle.saturate_blocks.specs.inside.Blocks.{OneSubject};
ghost use Rattle.saturate_counts.specs.inside.Prepared.{Square, Keys, Prepared, Facts};
ghost use Rattle.saturate_index.specs.inside.Index.{object_of, Index, Once};
ghost use Rattle.saturate_counts.specs.inside.Supported.{Supported, Small, Range};
ghost use Rattle.saturate_subject.specs.inside.Rows.{Of, ColumnRows, PropertyRows, Uncounted};

use saturate_blocks::{first_from, gather, put_facts};
use saturate_counted::{Own, merge_counted};
use saturate_counts::{Subject, counts_of};
use saturate_merge::merge_streams;
use saturate_schema::{MOST_COLUMNS, Sizes};
use table::wide;

// The least property above rdf:type.
const AFTER_TYPE: u64 = 2;

// What is put for a column, for a subject: its facts between from and to, which have the column's key as their property, and those of its
// facts between first and end whose property leads to the column.
#[derive(Clone, Copy)]
pub struct Column {
    pub column: usize,
    pub key: u32,
    pub subject: u32,
    pub first: usize,
    pub end: usize,
    pub from: usize,
    pub to: usize,
}

// Puts the rows of a subject whose property is the key of a column, merged from these facts.
fn column_rows(
    statements: &[u32],
    sizes: Sizes,
    domains: &[u8],
    f: &[u32],
    ends: &mut [usize],
    kept: &mut [u32],
    supports: &mut [u16],
    column: Column,
    room: usize,
    n0: usize,
) -> usize
    requires statements { Statements statements.now sizes.statements }
    requires statements_bound { (sizes.statements ≤ 512) × (column.column < sizes.columns) × (sizes.columns ≤ 512) × (column.first ≤ column.end) × (column.end * 3 < length f.now) × (1026 ≤ length ends.old) }
    requires square { Square statements.now sizes.statements sizes.columns domains.now }
    requires one_subject { OneSubject f.now column.first column.end }
    requires first_le_from { (column.first ≤ column.from) × (column.from ≤ column.to) × (column.to ≤ column.end) × ((y : ℕ) → column.from ≤ y → y < column.to → property_at f.now y ≡ column.key) }
    requires room_in_bounds { (room * 3 < length kept.old) × (room ≤ length supports.old) × (room ≤ 2 ^ 32) }
    ensures { (K : Kept) → Counts K → ColumnRows K statements.now sizes.statements domains.now column.column f.now column.subject column.key column.from column.to column.first column.end → output kept.new supports.new result ≡ put_all room (between (triple column.subject column.key 0) (triple column.subject (column.key + 1) 0) K) (output kept.old supports.old n0) }
{
    ends[0] = column.from;
    ends[1] = column.to;
    let k = gather(
        statements,
        sizes,
        domains,
        column.column,
        f,
        column.first,
        column.end,
        ends,
        1,
    );
    merge_streams(
        f,
        ends,
        k,
        column.subject,
        column.key,
        kept,
        supports,
        room,
        n0,
    )
}

// A subject whose rows are to be put, and the output so far: how many rows fit, and how many there are.
#[derive(Clone, Copy)]
pub struct Task {
    pub sizes: Sizes,
    pub own: Subject,
    pub room: usize,
    pub rows: usize,
}

// Puts the rows of a subject whose property is not rdf:type, from its facts from fact t on.
fn property_rows(
    statements: &[u32],
    domains: &[u8],
    keys: &[u32; MOST_COLUMNS],
    counts: &[u32; MOST_COLUMNS],
    f: &[u32],
    t: usize,
    ends: &mut [usize],
    kept: &mut [u32],
    supports: &mut [u16],
    task: Task,
) -> usize
    requires statements { Statements statements.now task.sizes.statements }
    requires square { Square statements.now task.sizes.statements task.sizes.columns domains.now }
    requires keys { Keys keys.now task.sizes.classes task.sizes.columns }
    requires facts { Facts f.now (count f.now) }
    requires statements_bound { (task.sizes.statements ≤ 512) × (t ≤ task.own.end) × (task.own.end ≤ count f.now) × (1026 ≤ length ends.old) }
    requires of { Of f.now task.own.term t task.own.end }
    requires by_index { (y : ℕ) → t ≤ y → y < task.own.end → 2 ≤ property_at f.now y }
    requires uncounted { Uncounted statements.now task.sizes.statements domains.now task.sizes.classes task.sizes.columns counts.now f.now t task.own.end }
    requires room_in_bounds { (task.room * 3 < length kept.old) × (task.room ≤ length supports.old) × (task.room ≤ 2 ^ 32) }
    ensures { (K : Kept) → Counts K → PropertyRows K statements.now task.sizes.statements domains.now keys.now task.sizes.classes task.sizes.columns f.now task.own.term t task.own.end → output kept.new supports.new result ≡ put_all task.room (between (triple task.own.term 2 0) (triple (task.own.term + 1) 0 0) K) (output kept.old supports.old task.rows) }
{
    let sizes = task.sizes;
    let own = task.own;
    let x = own.term;
    let e = own.end;
    let room = task.room;
    let mut n = task.rows;
    let mut q = t;
    for c in sizes.classes..sizes.columns {
        if 0 < counts[c] {
            let w = keys[c];
            let z = first_from(f, q, e, wide(w));
            n = put_facts(f, q, z, kept, supports, room, n);
            q = first_from(f, z, e, wide(w) + 1);
            let column = Column {
                column: c,
                key: w,
                subject: x,
                first: t,
                end: e,
                from: z,
                to: q,
            };
            n = column_rows(
                statements, sizes, domains, f, ends, kept, supports, column, room, n,
            );
        }
    }
    put_facts(f, q, e, kept, supports, room, n)
}

// Puts the rows of a subject.
pub fn subject_rows(
    statements: &[u32],
    domains: &[u8],
    ranges: &[u8],
    keys: &[u32; MOST_COLUMNS],
    f: &[u32],
    ix: &[u32],
    ends: &mut [usize],
    kept: &mut [u32],
    supports: &mut [u16],
    task: Task,
) -> usize
    requires prepared { Prepared statements.now task.sizes.statements keys.now task.sizes.classes task.sizes.columns domains.now ranges.now }
    requires facts { Facts f.now (count f.now) }
    requires index { Index f.now ix.now (count f.now) }
    requires once { Once (count f.now) ix.now }
    requires small { Small statements.now task.sizes.statements domains.now ranges.now keys.now task.sizes.classes f.now (count f.now) }
    requires range { Range (subject_at f.now) (count f.now) task.own.term task.own.first task.own.end }
    requires range_2 { Range (object_of f.now ix.now) (count f.now) task.own.term task.own.from task.own.to }
    requires term_value { is_literal task.own.term ≡ false }
    requires in_bounds { 1026 ≤ length ends.old }
    requires room_in_bounds { (task.room * 3 < length kept.old) × (task.room ≤ length supports.old) × (task.room ≤ 2 ^ 32) }
    ensures { (K : Kept) → Counts K → Supported K statements.now task.sizes.statements domains.now ranges.now keys.now task.sizes.classes task.sizes.columns f.now (count f.now) → output kept.new supports.new result ≡ put_all task.room (between (triple task.own.term 0 0) (triple (task.own.term + 1) 0 0) K) (output kept.old supports.old task.rows) }
{
    let sizes = task.sizes;
    let own = task.own;
    let counts = counts_of(statements, sizes, domains, ranges, f, ix, own);
    let t = first_from(f, own.first, own.end, AFTER_TYPE);
    let typed = Own {
        subject: own.term,
        from: own.first,
        to: t,
    };
    let n = merge_counted(
        f,
        typed,
        keys,
        sizes.classes,
        &counts,
        kept,
        supports,
        task.room,
        task.rows,
    );
    let rest = Task {
        sizes,
        own,
        room: task.room,
        rows: n,
    };
    property_rows(
        statements, domains, keys, &counts, f, t, ends, kept, supports, rest,
    )
}
