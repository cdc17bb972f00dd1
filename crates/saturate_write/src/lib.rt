// The kept facts written in two passes over the subjects: the first counts their rows, and where they fit, the second writes them.
#![tactic(auto)]

ghost use Rattle.std.specs.Prelude.{◌≡◌, ◌*◌, ◌≤◌, ◌<◌, length};
ghost use Rattle.spec.specs.Tables.{count};
ghost use Rattle.spec.specs.Saturation.{Kept};
ghost use Rattle.spec.specs.inside.Counts.{Counts};
ghost use Rattle.saturate_index.specs.inside.Index.{Index, Once, Sorted};
ghost use Rattle.saturate_counts.specs.inside.Prepared.{Prepared, Facts};
ghost use Rattle.saturate_counts.specs.inside.Supported.{Supported, Small};
ghost use Rattle.saturate_write.specs.inside.Written.{result_of, written, Exists};

use rows_zero::{zero_supports, zero_words};
use saturate_run::put_rows;
use saturate_schema::{MOST_COLUMNS, Sizes};

// Puts all rows in two passes: the first counts them and writes nothing; where they fit room, the second writes them, and then come the
// count and the zeros. True where they fit.
pub fn put_all(
    statements: &[u32],
    domains: &[u8],
    ranges: &[u8],
    keys: &[u32; MOST_COLUMNS],
    facts: &[u32],
    ix: &[u32],
    kept: &mut [u32],
    supports: &mut [u16],
    sizes: Sizes,
    room: usize,
) -> bool
    requires prepared { Prepared statements.now sizes.statements keys.now sizes.classes sizes.columns domains.now ranges.now }
    requires facts { Facts facts.now (count facts.now) }
    requires index { Index facts.now ix.now (count facts.now) × Once (count facts.now) ix.now × Sorted facts.now ix.now (count facts.now) }
    requires small { Small statements.now sizes.statements domains.now ranges.now keys.now sizes.classes facts.now (count facts.now) }
    requires exists { Exists statements.now sizes.statements domains.now ranges.now keys.now sizes.classes sizes.columns facts.now (count facts.now) }
    requires room_in_bounds { (room * 3 < length kept.old) × (room ≤ length supports.old) × (room ≤ 262143) }
    ensures { (K : Kept) → Counts K → Supported K statements.now sizes.statements domains.now ranges.now keys.now sizes.classes sizes.columns facts.now (count facts.now) → result_of result kept.new supports.new ≡ written K room kept.old supports.old }
{
    let k = put_rows(
        statements, domains, ranges, keys, facts, ix, kept, supports, sizes, 0,
    );
    if room < k {
        return false;
    }
    let n = put_rows(
        statements, domains, ranges, keys, facts, ix, kept, supports, sizes, room,
    );
    kept[0] = n as u32;
    zero_words(kept, n * 3 + 1, kept.len());
    zero_supports(supports, n, supports.len());
    true
}
