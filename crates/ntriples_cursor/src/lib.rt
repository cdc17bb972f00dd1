// The canonical text of a term that stands in a line, piece by piece.
#![tactic(auto)]

mod chars; // chars.rt: characters, escapes resolved
mod pieces; // pieces.rt: the bytes of a character
pub mod steps; // steps.rt: the steps of a cursor

// What a cursor stands in: at the beginning of a term, inside an IRI, inside a label or behind the text's last byte, inside a string, at the
// mark of a datatype or a tag, or inside a tag.
#[derive(Clone, Copy)]
pub enum Mode {
    Term,
    Iri,
    Label,
    Quoted,
    Suffix,
    Tag,
}

// Where the next piece of a text begins.
#[derive(Clone, Copy)]
pub struct Cursor {
    pub place: usize,
    pub mode: Mode,
}

// Up to four bytes of canonical text, and where the next piece begins.
#[derive(Clone, Copy)]
pub struct Piece {
    pub bytes: [u8; 4],
    pub len: usize,
    pub next: Cursor,
}
