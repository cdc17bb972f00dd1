// A row in a slice of its own, beside rows of an output: whether it is one of them, and written as one of them.
#![tactic(auto)]

ghost use Rattle.std.specs.Prelude.{◌≡◌, true, ◌+◌, ◌*◌, ◌≤◌, length};
ghost use Rattle.spec.specs.Rows.{less};
ghost use Rattle.rows.specs.inside.Rows as sorted-rows;
ghost use Rattle.rows_single.specs.inside.Effects.{Found, RowWritten};

// Whether the m words from p on of one slice are below the m words from q on of another. Word by word, since the order of slices is slower on rows of few words.
fn less_words(t: &[u32], p: usize, u: &[u32], q: usize, m: usize) -> bool
    requires { (p + m ≤ length t.now) × (q + m ≤ length u.now) }
    ensures { result ≡ less (sorted-rows.row m p t.now) (sorted-rows.row m q u.now) }
{
    for k in 0..m {
        let x = t[p + k];
        let y = u[q + k];
        if x != y {
            return x < y;
        }
    }
    false
}

// Whether the m words from p on are the first m words of a row. Word by word, since == of slices is slower on rows of few words.
pub fn is_same(t: &[u32], p: usize, row: &[u32], m: usize) -> bool
    requires { (p + m ≤ length t.now) × (m ≤ length row.now) }
    ensures { result ≡ true → sorted-rows.row m p t.now ≡ sorted-rows.row m 0 row.now }
{
    for k in 0..m {
        if t[p + k] != row[k] {
            return false;
        }
    }
    true
}

// Whether a row is among the first n rows, which ascend: a binary search for the first row that is not below it.
pub fn is_among(out: &[u32], m: usize, n: usize, row: &[u32]) -> bool
    requires { (n * m ≤ length out.now) × (m ≤ length row.now) }
    ensures { Found m n out.now (sorted-rows.row m 0 row.now) result }
{
    let mut lo = 0;
    let mut hi = n;
    while lo < hi {
        let mid = lo + (hi - lo) / 2;
        if less_words(out, mid * m, row, 0, m) {
            lo = mid + 1;
            continue;
        }
        hi = mid;
    }
    if lo == n {
        return false;
    }
    !less_words(row, 0, out, lo * m, m)
}

// Writes a row as row n. Word by word, since copy_from_slice is slower on rows of few words.
pub fn write_row(out: &mut [u32], m: usize, n: usize, row: &[u32])
    requires { (n * m + m ≤ length out.old) × (m ≤ length row.now) }
    ensures { RowWritten m n (sorted-rows.row m 0 row.now) out.old out.new }
{
    let at = n * m;
    for k in 0..m {
        out[at + k] = row[k];
    }
}
