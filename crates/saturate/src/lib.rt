// The kept facts and their supports, worked out afresh from the statements and the facts. Each statement's subject is compiled into rows of
// bits that say which classes and properties it leads to; then the rows of each subject are put in order, from its facts and from those of
// which it is the object. The same run counts the rows and, where they fit, writes them. About linear in facts times columns.
#![tactic(auto)]

ghost use Rattle.std.specs.Prelude.{◌≡◌, true, ℕ, ◌*◌, ◌≤◌, ◌<◌, length};
ghost use Rattle.spec.specs.Tables.{is_statement_table, is_fact_table, count};
ghost use Rattle.saturate_schema.specs.inside.Nodes.{Columns};
ghost use Rattle.saturate_schema.specs.inside.Squares.{at};
ghost use Rattle.saturate_index.specs.inside.Index.{Index, Once, Sorted};
ghost use Rattle.saturate_counts.specs.inside.Prepared.{Facts};
ghost use Rattle.saturate_write.specs.inside.Written.{result_of};
ghost use Rattle.saturate.specs.inside.Saturated.{saturated, Domains, Ranges};

use saturate_schema::{MOST_COLUMNS, Sizes};
use saturate_write::put_all;
use table::{MOST_FACTS, MOST_STATEMENTS};
use terms::Term;

// How many bits a square has: a row for each statement.
const SQUARE: usize = MOST_STATEMENTS * MOST_COLUMNS;

// How many places of facts there are, and one more.
const PLACES: usize = MOST_FACTS + 1;

// Fills a square of 0: what the statements lead to by subclasses, subproperties and via.
fn fill_square(
    statements: &[u32],
    m: usize,
    columns: &[u64],
    ns: usize,
    via: u32,
    square: &mut [u8],
)
    requires columns { Columns statements.now m columns.now ns }
    requires m_in_bounds { (m * 3 < length statements.now) × (ns ≤ length columns.now) }
    requires square_len { (length square.old ≡ 262144) × ((i c : ℕ) → at square.old i c ≡ 0) }
    ensures { Ranges statements.now m columns.now ns via square.new }
{
    let mut gain = [0; MOST_COLUMNS];
    saturate_squares::close(statements, m, columns, ns, via, square, &mut gain);
}

// Fills a square of 0: what the statements lead to by subclasses, subproperties and domains, themselves left out.
fn fill_domains(statements: &[u32], m: usize, columns: &[u64], ns: usize, square: &mut [u8])
    requires columns { Columns statements.now m columns.now ns }
    requires m_in_bounds { (m * 3 < length statements.now) × (ns ≤ length columns.now) }
    requires square_len { (length square.old ≡ 262144) × ((i c : ℕ) → at square.old i c ≡ 0) }
    ensures { Domains statements.now m columns.now ns square.new }
{
    fill_square(statements, m, columns, ns, Term::DOMAIN, square);
    saturate_squares::clear_own(statements, m, columns, ns, square);
}

// Fills the places of the facts, in the order of their objects.
fn fill_places(facts: &[u32], ix: &mut [u32])
    requires facts { Facts facts.now (count facts.now) }
    requires ix_len { length ix.old ≡ 65536 }
    ensures { Index facts.now ix.new (count facts.now) × Once (count facts.now) ix.new × Sorted facts.now ix.new (count facts.now) }
{
    saturate_index::by_object(facts, ix, facts[0] as usize);
}

// Works the kept facts and their supports out afresh. True: they are in kept and supports. False: they do not fit room, and no word has changed.
// The arrays are lent to those that fill them: an array that is computed and returned would be copied on the stack.
pub fn saturate(
    statements: &[u32],
    facts: &[u32],
    kept: &mut [u32],
    supports: &mut [u16],
    room: usize,
) -> bool
    requires statements_value { is_statement_table statements.now ≡ true }
    requires facts_value { is_fact_table facts.now ≡ true }
    requires room_in_bounds { (room * 3 < length kept.old) × (room ≤ length supports.old) × (room ≤ 262143) }
    ensures { result_of result kept.new supports.new ≡ saturated statements.now facts.now room kept.old supports.old }
{
    let m = statements[0] as usize;
    let mut columns = [0; MOST_COLUMNS];
    let ns = saturate_columns::columns(statements, m, &mut columns);
    let nc = saturate_columns::classes(&columns, ns);
    let mut keys = [0; MOST_COLUMNS];
    saturate_columns::terms(&columns, ns, &mut keys);
    let mut domains = [0; SQUARE];
    fill_domains(statements, m, &columns, ns, &mut domains);
    let mut ranges = [0; SQUARE];
    fill_square(statements, m, &columns, ns, Term::RANGE, &mut ranges);
    let mut ix = [0; PLACES];
    fill_places(facts, &mut ix);
    let sizes = Sizes {
        statements: m,
        classes: nc,
        columns: ns,
    };
    put_all(
        statements, &domains, &ranges, &keys, facts, &ix, kept, supports, sizes, room,
    )
}
