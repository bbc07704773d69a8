// The type table of source 000: the whole of it, a number of it, the row of a named type, and what tells a code outside a row's range.
#![tactic(auto)]

ghost use Rattle.std.specs.Prelude.{◌≡◌, ◌+◌, ◌≤◌, ◌<◌, ◌^◌, length};
ghost use Rattle.types.specs.Rows.{rows};
ghost use Rattle.types.specs.Table.{numbers, words_from, word_at, low_in, span_in, column, value_outside};
ghost use Rattle.types.specs.Named.{named_row, named_says, named_answer};

use answers::Reason;
use layout::WORDS_FROM;

pub mod layout;
pub mod names;
mod table;

// The edition of the table: YD/T 3709-2020.
pub const FIRST_EDITION: u64 = 1;

// How many numbers the table has, two for each bounds and one for each row: what is lent of it is an array of so many, whose length need not be asked for.
pub const NUMBERS: usize = 2 * layout::BOUNDS_ROOM + layout::ROWS;

// The table, to be taken once by a public entry and lent down: a constant array is made anew wherever it is named.
pub fn rows() -> [u32; NUMBERS]
    ensures { result ≡ numbers rows }
{
    table::TABLE
}

// Column k of a row of any table; 0 past its end. A table that has the word of a row has room for all bounds before it. A component has
// no bounds of its own: those in its word spare a walk the look at its type.
pub fn column(rows: &[u32], row: usize, k: u8) -> usize
    ensures is { result ≡ column rows.now row k }
    ensures small { result < 2 ^ 32 }
{
    if rows.len() <= WORDS_FROM || rows.len() - WORDS_FROM <= row {
        return 0;
    }
    let word = word_at(rows, row);
    let kind = word % layout::KIND_ROOM;
    match k {
        layout::KIND => kind,
        layout::MARK => word / layout::MARK_FROM % layout::MARK_ROOM,
        layout::LOWEST if kind == layout::COMPONENT => layout::BIAS,
        layout::LOWEST => low_in(rows, word),
        layout::SPAN if kind == layout::COMPONENT => 0,
        layout::SPAN => span_in(rows, word),
        layout::FIRST => word / layout::FIRST_FROM % layout::FIRST_ROOM,
        layout::COUNT => word / layout::COUNT_FROM % layout::COUNT_ROOM,
        _ => 0,
    }
}

// The word of `row` of the table `rows`.
fn word_at(rows: &[u32], row: usize) -> usize
    requires { words_from + row < length rows.now }
    ensures { (result ≡ word_at rows.now row) × (result < 2 ^ 32) }
{
    rows[WORDS_FROM + row] as usize
}

// The lowest value that stands in `word` of the table `rows`, as its distance from the lowest 32-bit number.
fn low_in(rows: &[u32], word: usize) -> usize
    requires { words_from ≤ length rows.now }
    ensures { (result ≡ low_in rows.now word) × (result < 2 ^ 32) }
{
    rows[2 * (word / layout::BOUNDS_FROM % layout::BOUNDS_ROOM)] as usize
}

// The highest value minus the lowest that stands in `word` of the table `rows`.
fn span_in(rows: &[u32], word: usize) -> usize
    requires { words_from ≤ length rows.now }
    ensures { (result ≡ span_in rows.now word) × (result < 2 ^ 32) }
{
    rows[2 * (word / layout::BOUNDS_FROM % layout::BOUNDS_ROOM) + 1] as usize
}

// The reason that tells a code outside the range of a row that is one field, by the row's `kind`: the index of an enumeration, or a number.
pub fn value_outside(kind: usize) -> Reason
    ensures { result ≡ value_outside kind }
{
    match kind {
        layout::ENUMERATION => Reason::ItemOutside,
        _ => Reason::NumberOutside,
    }
}

// The row of the type that `type_number` names, where it names one; document 01 names three.
#[tactic(auto, unfolding(crate::specs::Named::named_row, crate::specs::Named::named_says, crate::specs::Named::named_answer))]
pub fn row_of(type_number: u64) -> Option<usize>
    ensures answer { result ≡ named_row type_number }
    ensures says { named_says result ≡ named_answer type_number }
{
    match type_number {
        0 => Some(names::MESSAGE_FRAME),
        1 => Some(names::DESCRIPTION),
        2 => Some(names::POSITION_OFFSET_LLV),
        _ => None,
    }
}
