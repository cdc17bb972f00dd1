// The rows of a table written with their columns in one of the six orders, and sorted.
#![tactic(auto)]

ghost use Rattle.std.specs.Prelude.{◌≡◌, map, ◌+◌, ◌*◌, ◌≤◌, ◌<◌, length, replicate};
ghost use Rattle.spec.specs.Tables.{count, rows};
ghost use Rattle.spec.specs.Outputs.{filled};
ghost use Rattle.spec.specs.Listings.{others, column_order, column, listing_rows};
ghost use Rattle.listing_rows.specs.inside.Asked.{Listable};
ghost use Rattle.listing_rows.specs.inside.Written.{RowWritten, RowsWritten};

use rows_in_order::sort_rows;
use spec::Triple;
use table::row_at;

// The columns of a row, 0 subject, 1 property and 2 object, without one: the other two, ascending. The lower one is 0, or 1 beside column 0; all
// three add up to 3.
fn others(c: u32) -> [u32; 2]
    requires { c ≤ 2 }
    ensures { result ≡ others c }
{
    let low = (2 - c) / 2;
    [low, 3 - c - low]
}

// The columns of an order: column order / 2 first, and the other two ascending where the order is even, else descending.
fn columns(order: u32) -> [u32; 3]
    requires { order ≤ 5 }
    ensures { result ≡ column_order order }
{
    let first = order / 2;
    let rest = others(first);
    if order % 2 == 0 {
        return [first, rest[0], rest[1]];
    }
    [first, rest[1], rest[0]]
}

// A column of a triple.
fn column(t: Triple, c: u32) -> u32
    ensures { result ≡ column t c }
{
    match c {
        0 => t.subject,
        1 => t.property,
        _ => t.object,
    }
}

// Writes the columns of a triple, in an order, as row i.
fn write_row(t: Triple, columns: [u32; 3], i: usize, out: &mut [u32])
    requires { i * 3 + 3 ≤ length out.old }
    ensures { RowWritten i (map (column t) columns) out.old out.new }
{
    let at = i * 3;
    out[at] = column(t, columns[0]);
    out[at + 1] = column(t, columns[1]);
    out[at + 2] = column(t, columns[2]);
}

// Writes the first n rows of a table, the columns of each in an order.
fn write_rows(table: &[u32], n: usize, columns: [u32; 3], out: &mut [u32])
    requires n_in_bounds { n * 3 < length table.now }
    requires n_in_bounds_2 { n * 3 ≤ length out.old }
    ensures { RowsWritten columns n table.now out.old out.new }
{
    for i in 0..n {
        write_row(row_at(table, i), columns, i, out);
    }
}

// Fills a cleared output with a table's rows in a column order, sorted.
pub fn fill_rows(table: &[u32], order: u32, out: &mut [u32])
    requires listable { Listable table.now }
    requires order_bound { order ≤ 5 }
    requires table_in_bounds { count table.now * 3 ≤ length out.old }
    requires out_value { out.old ≡ replicate (length out.old) 0 }
    ensures { out.new ≡ filled (length out.old) (listing_rows order (rows table.now)) }
{
    let n = table[0] as usize;
    write_rows(table, n, columns(order), out);
    sort_rows(out, 3, n);
}
