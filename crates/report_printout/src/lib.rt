// What the program `kept_ntriples` prints on standard output and on standard error, by its lengths; and a refusal.
#![tactic(auto)]

ghost use Rattle.std.specs.Prelude.{◌≡◌, ◌≤◌, length};
ghost use Rattle.report_text.specs.Text.{refusal_text};
ghost use Rattle.report_text.specs.inside.Appended.{Appended, head_room};

use report_text::write_labelled;

// How many bytes are printed: on standard output, and on standard error.
#[derive(Clone, Copy)]
pub struct Lengths {
    pub output: usize,
    pub errors: usize,
}

// Writes a refusal.
pub fn refuse(n: u32, errors: &mut [u8]) -> Lengths
    requires { head_room ≤ length errors.old }
    ensures output_value { result.output ≡ 0 }
    ensures appended { Appended (refusal_text n) 0 errors.old errors.new result.errors }
    ensures errors_le_head_room { result.errors ≤ head_room }
{
    Lengths {
        output: 0,
        errors: write_labelled(b"refused ", n, b'\n', errors, 0),
    }
}
