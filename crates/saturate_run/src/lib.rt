// The run over the subjects, ascending: the subjects of facts, and the objects that are no literals.
#![tactic(auto)]

ghost use Rattle.std.specs.Prelude.{◌≡◌, ◌*◌, ◌^◌, ◌≤◌, ◌<◌, length};
ghost use Rattle.spec.specs.Tables.{count};
ghost use Rattle.spec.specs.Saturation.{Kept};
ghost use Rattle.spec.specs.inside.Counts.{Counts};
ghost use Rattle.saturate_merge.specs.inside.Output.{output, put_all};
ghost use Rattle.saturate_index.specs.inside.Index.{Index, Once, Sorted};
ghost use Rattle.saturate_counts.specs.inside.Prepared.{Prepared, Facts};
ghost use Rattle.saturate_counts.specs.inside.Supported.{Supported, Small};

use saturate_counts::Subject;
use saturate_next::{next_subject, object_end, subject_end};
use saturate_schema::{MOST_COLUMNS, Sizes};
use saturate_subject::{Task, subject_rows};
use table::MOST_STATEMENTS;

// How many ends the streams of a column have: two for a block of facts for each statement, and for one more.
const ENDS: usize = (MOST_STATEMENTS + 1) * 2;

// Puts all rows: the whole list of kept facts that has these supports. How many there are, counted up to 2^32.
pub fn put_rows(
    statements: &[u32],
    domains: &[u8],
    ranges: &[u8],
    keys: &[u32; MOST_COLUMNS],
    f: &[u32],
    ix: &[u32],
    kept: &mut [u32],
    supports: &mut [u16],
    sizes: Sizes,
    room: usize,
) -> usize
    requires prepared { Prepared statements.now sizes.statements keys.now sizes.classes sizes.columns domains.now ranges.now }
    requires facts { Facts f.now (count f.now) }
    requires index { Index f.now ix.now (count f.now) }
    requires once { Once (count f.now) ix.now }
    requires sorted { Sorted f.now ix.now (count f.now) }
    requires small { Small statements.now sizes.statements domains.now ranges.now keys.now sizes.classes f.now (count f.now) }
    requires room_in_bounds { (room * 3 < length kept.old) × (room ≤ length supports.old) × (room ≤ 2 ^ 32) }
    ensures { (K : Kept) → Counts K → Supported K statements.now sizes.statements domains.now ranges.now keys.now sizes.classes sizes.columns f.now (count f.now) → output kept.new supports.new result ≡ put_all room K (output kept.old supports.old 0) }
{
    let n = f[0] as usize;
    let mut ends = [0; ENDS];
    let mut out = 0;
    let mut i = 0;
    let mut j = 0;
    while let Ok(x) = u32::try_from(next_subject(f, ix, n, i, j)) {
        let e = subject_end(f, n, i, x);
        let h = object_end(f, ix, n, j, x);
        let own = Subject {
            term: x,
            first: i,
            end: e,
            from: j,
            to: h,
        };
        let task = Task {
            sizes,
            own,
            room,
            rows: out,
        };
        out = subject_rows(
            statements, domains, ranges, keys, f, ix, &mut ends, kept, supports, task,
        );
        i = e;
        j = h;
    }
    out
}
