// The rows collected in a lent output, given.
#![tactic(auto)]

ghost use Rattle.std.specs.Prelude.{◌≡◌, List, ℕ, ◌<◌, length};
ghost use Rattle.spec.specs.Outputs.{replied};
ghost use Rattle.rows_distinct.specs.inside.Collected.{Collects, gathered};
ghost use Rattle.rows_distinct.specs.inside.Effects.{Within};

use output::clear;
use rows_distinct::{Collected, settle};
use spec::Reply;

// Gives the rows that were put, ascending, each once, or refuses by 8 where they do not fit.
pub fn finish(out: &mut [u32], m: usize, c: Collected) -> Reply
    requires { (0 < m) × Within m out.old c }
    ensures { (R : List (List ℕ)) → Collects m R out.old c → replied result out.new ≡ gathered m R (length out.old) }
{
    if c.exceeded {
        clear(out);
        return Err(8);
    }
    let s = settle(out, m, c);
    Ok(s.sorted)
}
