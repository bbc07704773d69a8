// Moving through a sheet: the components of a sequence, the chosen alternative and the entries of a list, over any table, row and place.
#![tactic(auto)]

ghost use Rattle.std.specs.Prelude.{◌≡◌, ℕ, ◌+◌, ◌≤◌, ◌<◌, ◌^◌, ◌-ℤ◌, pos, Err, length};
ghost use Rattle.answers.specs.Refusals.{no_value};
ghost use Rattle.types.specs.Shape.{Ty, field};
ghost use Rattle.types.specs.Table.{bias, row_at, lowest_of, root_at, fields_of};
ghost use Rattle.meaning.specs.Walk.{flags};
ghost use Rattle.meaning.specs.Writing.{write_whole, writer};
ghost use Rattle.passing.specs.Ended.{Ended, in_range};
ghost use Rattle.passing.specs.Passing.{passed_says};
ghost use Rattle.sheet.specs.Sole.{sole_at};
ghost use Rattle.sheet.specs.Moving.{number_by, here_from, front_from, has_at, component_at, part_by, chosen_at, entries_at};
ghost use Rattle.sheet.specs.Says.{sole_answer, part_says, component_answer, choice_says, chosen_answer, listed_says, entries_answer};

use answers::{Reason, Refusal};
use basics::less;
use passing::present;
pub use passing::{pass, value};
use types::column;
use types::layout::{
    BIAS, BIAS_SIGNED, CHOICE, COUNT, FIRST, KIND, LIST, LOWEST, MARK, SEQUENCE, SPAN,
};
use walking::past;

// Whether all of `sheet` is one value of the type of `row`: where it ends, which is the sheet's end, or why it is none.
pub fn sole(rows: &[u32], row: usize, sheet: &[i64]) -> Result<usize, Refusal>
    ensures answer { result ≡ sole_at rows.now row sheet.now }
    ensures says { passed_says result ≡ sole_answer rows.now row sheet.now }
{
    let next = pass(rows, row, sheet, 0)?;
    if next < sheet.len() {
        return Err(Refusal::new(Reason::NoValue, next));
    }
    Ok(next)
}

// A component that is there: the row of its type, and its place.
#[derive(Clone, Copy, Debug, PartialEq, Eq, Hash)]
pub struct Part {
    pub row: usize,
    pub place: usize,
}

// Component `k`, counted from 0, of the sequence of the type of `row` that stands at `place` of `sheet`, or that it is absent; or why no
// such sequence stands there.
pub fn component(
    rows: &[u32],
    row: usize,
    k: usize,
    sheet: &[i64],
    place: usize,
) -> Result<Option<Part>, Refusal>
    ensures answer { result ≡ component_at rows.now row k sheet.now place }
    ensures says { part_says result ≡ component_answer rows.now row k sheet.now place }
{
    if column(rows, row, KIND) != SEQUENCE {
        return Err(Refusal::new(Reason::UnknownType, 0));
    }
    let count = column(rows, row, COUNT);
    if count <= k {
        return Err(Refusal::new(Reason::UnknownType, 0));
    }
    if sheet.len() < place {
        return Err(Refusal::new(Reason::NoValue, sheet.len()));
    }
    let first = column(rows, row, FIRST);
    let start = presence(rows, first, count, sheet, place)?;
    found(rows, first, k, sheet, place, start)
}

// Component `k` of those from row `first` on, whose presence cells stand from `flag` on and themselves from `start` on.
fn found(
    rows: &[u32],
    first: usize,
    k: usize,
    sheet: &[i64],
    flag: usize,
    start: usize,
) -> Result<Option<Part>, Refusal>
    requires { (first < 2 ^ 32) × (k < 2 ^ 32) × (flag ≤ length sheet.now) }
    ensures { result ≡ part_by (row_at rows.now (first + k)).first (here_from rows.now k first sheet.now flag) (front_from rows.now sheet.now k first flag start) }
{
    let place = before(rows, first, k, sheet, flag, start)?;
    if here(rows, first, k, sheet, flag) == 0 {
        return Ok(None);
    }
    let row = column(rows, first + k, FIRST);
    Ok(Some(Part { row, place }))
}

// The place behind the `k` components from row `first` on, of which those that are there are passed over.
fn before(
    rows: &[u32],
    first: usize,
    k: usize,
    sheet: &[i64],
    flag: usize,
    start: usize,
) -> Result<usize, Refusal>
    requires { (first < 2 ^ 32) × (k < 2 ^ 32) × (flag ≤ length sheet.now) }
    ensures { result ≡ front_from rows.now sheet.now k first flag start }
{
    let mut p = flag;
    let mut at = start;
    for g in first..first + k {
        let mark = column(rows, g, MARK);
        let there = present(mark, sheet, p);
        p = past(mark, p);
        if there != 0 {
            at = pass(rows, column(rows, g, FIRST), sheet, at)?;
        }
    }
    Ok(at)
}

// Whether component `k` of the sequence of the type of `row` at `place` is there, by its presence cell alone.
pub fn has(rows: &[u32], row: usize, k: usize, sheet: &[i64], place: usize) -> bool
    ensures { result ≡ has_at rows.now row k sheet.now place }
{
    if column(rows, row, KIND) != SEQUENCE {
        return false;
    }
    if column(rows, row, COUNT) <= k {
        return false;
    }
    if sheet.len() < place {
        return false;
    }
    here(rows, column(rows, row, FIRST), k, sheet, place) != 0
}

// The presence number of component `k` of those from row `first` on, whose presence cells stand from `flag` on: 0 where it is absent.
fn here(rows: &[u32], first: usize, k: usize, sheet: &[i64], flag: usize) -> u64
    requires { (first < 2 ^ 32) × (k < 2 ^ 32) × (flag ≤ length sheet.now) }
    ensures { result ≡ here_from rows.now k first sheet.now flag }
{
    let mut p = flag;
    for g in first..first + k {
        p = past(column(rows, g, MARK), p);
    }
    present(column(rows, first + k, MARK), sheet, p)
}

// The number in the cell of `sheet` at `place`, which is at least `least` and at most `span` above it; or why none stands there.
fn counted(sheet: &[i64], place: usize, least: usize, span: usize) -> Result<u64, Refusal>
    requires { (least + bias < 2 ^ 32) × (span < 2 ^ 32) }
    ensures { result ≡ number_by least (write_whole (field (pos least) span) sheet.now place) }
{
    number(sheet, place, least + BIAS, span)?;
    Ok(value(sheet, place))
}

// The chosen alternative of a choice: its index, the row of its type, and its place.
#[derive(Clone, Copy, Debug, PartialEq, Eq, Hash)]
pub struct Choice {
    pub index: u64,
    pub row: usize,
    pub place: usize,
}

// The alternative of the choice of the type of `row` that stands at `place` of `sheet`; or why no such choice stands there.
pub fn chosen(rows: &[u32], row: usize, sheet: &[i64], place: usize) -> Result<Choice, Refusal>
    ensures answer { result ≡ chosen_at rows.now row sheet.now place }
    ensures says { choice_says result ≡ chosen_answer rows.now row sheet.now place }
{
    if column(rows, row, KIND) != CHOICE {
        return Err(Refusal::new(Reason::UnknownType, 0));
    }
    let index = counted(sheet, place, 0, column(rows, row, SPAN))?;
    let alternative = column(rows, row, FIRST) + index as usize;
    Ok(Choice {
        index,
        row: column(rows, alternative, FIRST),
        place: place + 1,
    })
}

// The entries of a list: how many, the row of their type, and the place of the first.
#[derive(Clone, Copy, Debug, PartialEq, Eq, Hash)]
pub struct Listing {
    pub count: u64,
    pub row: usize,
    pub place: usize,
}

// The entries of the list of the type of `row` that stands at `place` of `sheet`; or why no such list stands there.
pub fn entries(rows: &[u32], row: usize, sheet: &[i64], place: usize) -> Result<Listing, Refusal>
    ensures answer { result ≡ entries_at rows.now row sheet.now place }
    ensures says { listed_says result ≡ entries_answer rows.now row sheet.now place }
{
    if column(rows, row, KIND) != LIST {
        return Err(Refusal::new(Reason::UnknownType, 0));
    }
    if sheet.len() < place {
        return Err(Refusal::new(Reason::NoValue, sheet.len()));
    }
    let least = less(column(rows, row, LOWEST), BIAS);
    let span = column(rows, row, SPAN);
    if span == 0 {
        return Ok(Listing {
            count: least as u64,
            row: column(rows, row, FIRST),
            place,
        });
    }
    let count = counted(sheet, place, least, span)?;
    Ok(Listing {
        count,
        row: column(rows, row, FIRST),
        place: place + 1,
    })
}

// What follows stands in passing too: a function that other crates can call asks nothing of its caller, and these ask for a range of 32 bits.

// Whether `cell` is in a range: `low` is its lowest value as the table keeps it, the distance from the lowest 32-bit number, and `span`
// its highest minus its lowest.
fn inside(cell: i64, low: usize, span: usize) -> bool
    requires { (low < 2 ^ 32) × (span < 2 ^ 32) }
    ensures { result ≡ in_range span (cell -ℤ lowest_of low) }
{
    let lowest = low as i64 - BIAS_SIGNED;
    if cell < lowest {
        return false;
    }
    if lowest + (span as i64) < cell {
        return false;
    }
    true
}

// No value: the cell `place` shows it.
fn no(place: usize) -> Result<usize, Refusal>
    ensures { result ≡ Err (no_value place) }
{
    Err(Refusal::new(Reason::NoValue, place))
}

// Passes over the cell `k` of `cells`, a whole number of the range `low` to `low` plus `span`; `low` is kept as the table keeps it.
fn number(cells: &[i64], k: usize, low: usize, span: usize) -> Result<usize, Refusal>
    requires { (low < 2 ^ 32) × (span < 2 ^ 32) }
    ensures { Ended (length cells.now) (write_whole (field (lowest_of low) span) cells.now k) result }
{
    if cells.len() <= k {
        return no(cells.len());
    }
    if inside(cells[k], low, span) {
        return Ok(k + 1);
    }
    no(k)
}

// Passes over the presence cells, from `k` on, of those of the `n` components from row `first` on that are OPTIONAL.
fn presence(
    rows: &[u32],
    first: usize,
    n: usize,
    cells: &[i64],
    mut k: usize,
) -> Result<usize, Refusal>
    requires { (k ≤ length cells.now) × (first < 2 ^ 32) × (n < 2 ^ 32) }
    ensures { (look : ℕ → Ty) → Ended (length cells.now) (flags (fields_of (root_at rows.now) look first n) writer cells.now k) result }
{
    let end = first + n;
    for f in first..end {
        if column(rows, f, MARK) != 0 {
            k = number(cells, k, BIAS, 1)?;
        }
    }
    Ok(k)
}
