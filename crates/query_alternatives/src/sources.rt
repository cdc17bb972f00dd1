// Alternatives by their source, put into an output. What a source gives is read off what two made-up facts carry.
ghost use Rattle.std.specs.Prelude.{◌≡◌, true, false, ℕ, ◌+◌, ◌-◌, ◌*◌, ◌≤◌, ◌<◌, length};
ghost use mathlib.Core.List.{List, [], ◌∷◌, flat_map};
ghost use Rattle.spec.specs.Terms.{is_vocabulary};
ghost use Rattle.spec.specs.Tables.{count, row_at, first_rows, rows, is_statement_table};
ghost use Rattle.spec.specs.computed.Carried.{carried};
ghost use Rattle.rows_distinct.specs.declared.Collected.{Collected};
ghost use Rattle.rows_distinct.specs.inside.Effects.{Within};
ghost use Rattle.spec.specs.computed.Reformulated.{alternatives_from};
ghost use Rattle.query_alternatives.specs.inside.Putting.{Puts, given, alternatives_below};

use crate::kinds::{BY_DOMAIN, BY_RANGE, BY_SUBCLASS, alternative_by, qualifies};
use query::questions::atom_at;
use rows_distinct::Collected;
use rows_put::put;
use spec::Triple;
use table::row_at;
use terms::Term;

// Puts an alternative.
pub fn put_alternative(out: &mut [u32], alternative: Triple, c: Collected) -> Collected
    requires { Within 3 out.old c }
    ensures { Puts (alternative ∷ []) out.old c out.new result }
{
    let row = [
        alternative.subject,
        alternative.property,
        alternative.object,
    ];
    put(out, 3, &row, c)
}

// Puts the alternative that a carried row gives, where it qualifies for the atom.
fn put_given(out: &mut [u32], atom: Triple, source: u32, row: Triple, c: Collected) -> Collected
    requires { Within 3 out.old c }
    ensures { Puts (given atom source row) out.old c out.new result }
{
    let alternative = alternative_by(source, row);
    if !qualifies(atom, alternative) {
        return c;
    }
    put_alternative(out, alternative, c)
}

// Puts the alternatives that n carried rows give.
fn put_rows(
    out: &mut [u32],
    atom: Triple,
    source: u32,
    list: &[u32],
    n: usize,
    c0: Collected,
) -> Collected
    requires { (n * 3 ≤ length list.now) × Within 3 out.old c0 }
    ensures { Puts (flat_map (given atom source) (first_rows n list.now)) out.old c0 out.new result }
{
    let mut c = c0;
    for i in 0..n {
        let row = atom_at(list, i * 3);
        c = put_given(out, atom, source, row, c);
    }
    c
}

// Puts the alternatives that the rows carried by a fact give.
fn put_carried(
    out: &mut [u32],
    statements: &[u32],
    atom: Triple,
    source: u32,
    fact: Triple,
    c: Collected,
) -> Collected
    requires { (is_statement_table statements.now ≡ true) × Within 3 out.old c }
    ensures { Puts (flat_map (given atom source) (carried (rows statements.now) fact)) out.old c out.new result }
{
    let mut list = rdfs_carry::no_rows();
    let n = rdfs_carry::carry(statements, fact, &mut list);
    put_rows(out, atom, source, &list, n, c)
}

// Puts the alternatives with a source that is no vocabulary. Of a made-up fact of that property the classes of its subject are those
// by domain, the classes of its object those by range, and its other properties those by subproperty; of a thing in that class the
// classes are those by subclass. The subjects and the object are the kinds, so that a row's subject is the kind of what it gives.
fn put_source(
    out: &mut [u32],
    statements: &[u32],
    atom: Triple,
    source: u32,
    c: Collected,
) -> Collected
    requires { (is_statement_table statements.now ≡ true) × ((is_vocabulary source ≡ false) × Within 3 out.old c) }
    ensures { Puts (alternatives_from (rows statements.now) atom source) out.old c out.new result }
{
    let of_class = Triple {
        subject: BY_SUBCLASS,
        property: Term::TYPE,
        object: source,
    };
    let of_property = Triple {
        subject: BY_DOMAIN,
        property: source,
        object: BY_RANGE,
    };
    let classes = put_carried(out, statements, atom, source, of_class, c);
    put_carried(out, statements, atom, source, of_property, classes)
}

// Whether the statement before has the same subject.
fn is_repeated(statements: &[u32], i: usize) -> bool
    requires { i * 3 + 3 < length statements.now }
    ensures { result ≡ true → (0 < i) × ((row_at statements.now (i - 1)).subject ≡ (row_at statements.now i).subject) }
{
    if i == 0 {
        return false;
    }
    let before = row_at(statements, i - 1);
    let row = row_at(statements, i);
    before.subject == row.subject
}

// Puts the alternatives whose source is the subject of statement i. Where the statement before has it they were put already.
fn put_statement(
    out: &mut [u32],
    statements: &[u32],
    atom: Triple,
    i: usize,
    c: Collected,
) -> Collected
    requires { (is_statement_table statements.now ≡ true) × ((i < count statements.now) × Within 3 out.old c) }
    ensures { (out₀ : List ℕ) (c₀ : Collected) → Puts (alternatives_below statements.now atom i) out₀ c₀ out.old c → Puts (alternatives_below statements.now atom (i + 1)) out₀ c₀ out.new result }
{
    if is_repeated(statements, i) {
        return c;
    }
    let row = row_at(statements, i);
    put_source(out, statements, atom, row.subject, c)
}

// Puts the alternatives of all sources: each is the subject of a statement.
pub fn put_statements(out: &mut [u32], statements: &[u32], atom: Triple, c0: Collected) -> Collected
    requires { (is_statement_table statements.now ≡ true) × Within 3 out.old c0 }
    ensures { Puts (alternatives_below statements.now atom (count statements.now)) out.old c0 out.new result }
{
    let n = statements[0] as usize;
    let mut c = c0;
    for i in 0..n {
        c = put_statement(out, statements, atom, i, c);
    }
    c
}
