// The file of N-Triples that a program reads: its most bytes, room for it, and what is printed for one that is longer.
#![tactic(auto)]

ghost use Rattle.std.specs.Prelude.{◌≡◌, ◌+◌, ◌≤◌, length};
ghost use Rattle.report_text.specs.inside.Appended.{Appended};
ghost use Rattle.report_input.specs.Input.{most_input, too_long};
ghost use Rattle.report_input.specs.inside.Rooms.{too_long_room};

use report_text::write_labelled;

// The most bytes of a file,
pub const MOST_INPUT: usize = 1048576;

// and room for one byte more.
const INPUT_ROOM: usize = MOST_INPUT + 1;

// Room for a file; one that is longer than the most fills it.
pub fn input_buffer() -> [u8; INPUT_ROOM]
    ensures { 1 + most_input ≡ length result }
{
    [0u8; INPUT_ROOM]
}

// Writes what is printed for a file that is longer than the most.
pub fn write_too_long(out: &mut [u8]) -> usize
    requires { too_long_room ≤ length out.old }
    ensures text { Appended too_long 0 out.old out.new result }
    ensures room { result ≤ too_long_room }
{
    write_labelled(b"the input has more bytes than ", 1048576, b'\n', out, 0)
}
