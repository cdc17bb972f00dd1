// Alternatives of an atom (document 01, "Questions and their rewriting").
#![tactic(auto)]

ghost use Rattle.std.specs.Prelude.{◌≡◌, true, length, replicate};
ghost use Rattle.spec.specs.Tables.{is_statement_table};
ghost use Rattle.spec.specs.Outputs.{replied};
ghost use Rattle.spec.specs.Alternatives.{reformulate};
ghost use Rattle.query_alternatives.specs.inside.Putting.{give_alternatives};

use output::clear;
use query::questions::is_atom;
use rows_distinct::start;
use rows_finish::finish;
use sources::{put_alternative, put_statements};
use spec::{Reply, Triple};
use table_check::is_statement_table;

mod kinds; // kinds.rt: which alternatives qualify for an atom
mod sources; // sources.rt: alternatives by their source, put into an output

// The alternatives of an atom, into an output of zeros, unless they do not fit (question 8).
fn gather(statements: &[u32], atom: Triple, out: &mut [u32]) -> Reply
    requires { (is_statement_table statements.now ≡ true) × (out.old ≡ replicate (length out.old) 0) }
    ensures { replied result out.new ≡ give_alternatives statements.now atom (length out.old) }
{
    let explicit = Triple {
        subject: 0,
        property: 0,
        object: 0,
    };
    let first = put_alternative(out, explicit, start());
    let all = put_statements(out, statements, atom, first);
    finish(out, 3, all)
}

// The alternatives of an atom under the statements lent: kind, source and target. It is asked 1, 6 and, last, 8; a refusal leaves the
// whole output zero.
pub fn alternatives(statements: &[u32], atom: Triple, out: &mut [u32]) -> Reply
    ensures { replied result out.new ≡ reformulate statements.now atom (length out.old) }
{
    clear(out);
    if !is_statement_table(statements) {
        return Err(1);
    }
    if !is_atom(atom) {
        return Err(6);
    }
    gather(statements, atom, out)
}
