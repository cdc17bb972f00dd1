// Numbers, words and entries written as bytes, low byte first.
ghost use Rattle.std.specs.Prelude.{◌≡◌, ◌+◌, ◌≤◌, length};
ghost use Rattle.std.proofs.lemmas.List.Edits.{sets};
ghost use Rattle.spec.specs.Messages.{short_bytes, word_bytes, entry_bytes};

use spec::Triple;

// Writes a 16-bit number from an index on.
pub fn write_short(n: u16, out: &mut [u8], at: usize)
    requires { at + 2 ≤ length out.old }
    ensures { out.new ≡ sets out.old at (short_bytes n) }
{
    out[at..at + 2].copy_from_slice(&n.to_le_bytes());
}

// Writes a 32-bit word from an index on.
fn write_word(w: u32, out: &mut [u8], at: usize)
    requires { at + 4 ≤ length out.old }
    ensures { out.new ≡ sets out.old at (word_bytes w) }
{
    write_short((w % 65536) as u16, out, at);
    write_short((w / 65536) as u16, out, at + 2);
}

// Writes the three words of an entry from an index on.
pub fn write_entry(t: Triple, out: &mut [u8], at: usize)
    requires { at + 12 ≤ length out.old }
    ensures { out.new ≡ sets out.old at (entry_bytes t) }
{
    write_word(t.subject, out, at);
    write_word(t.property, out, at + 4);
    write_word(t.object, out, at + 8);
}
