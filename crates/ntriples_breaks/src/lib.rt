// The lines of some bytes: where one ends, and where the next begins.
#![tactic(auto)]

ghost use Rattle.std.specs.Prelude.{◌≡◌, ◌+◌, ◌≤◌, length, drop};
ghost use Rattle.ntriples_breaks.specs.inside.Breaks.{line_length, IsNext};

// Where the line ends that begins at an index: at the first CR or LF, or at the end.
pub fn line_end(file: &[u8], from: usize) -> usize
    requires { from ≤ length file.now }
    ensures { result ≡ from + line_length (drop from file.now) }
{
    for at in from..file.len() {
        let b = file[at];
        if (b == b'\r') | (b == b'\n') {
            return at;
        }
    }
    file.len()
}

// Where the next line begins, behind one that ends at an index; the end, where there is none.
pub fn next_line(file: &[u8], end: usize) -> usize
    ensures { IsNext file.now end result }
{
    if end < file.len() {
        return end + 1;
    }
    file.len()
}
