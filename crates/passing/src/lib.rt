// Passing over a value in a sheet: where it ends, by a walk through a type table over cells alone.
#![tactic(auto)]

ghost use Rattle.std.specs.Prelude.{◌≡◌, ℕ, ◌-◌, ◌≤◌, ◌<◌, ◌^◌, ◌-ℤ◌, Err, length};
ghost use Rattle.basics.specs.Lists.{cell_at};
ghost use Rattle.answers.specs.Refusals.{no_value};
ghost use Rattle.types.specs.Shape.{Ty, field};
ghost use Rattle.types.specs.Shape.Ty.{num, seq, choice, list};
ghost use Rattle.types.specs.Table.{bias, lowest_of, root_at, fields_of, alts_of, type_at};
ghost use Rattle.meaning.specs.Walk.{flags, times, fields};
ghost use Rattle.meaning.specs.Writing.{write_whole, writer, write};
ghost use Rattle.walking.specs.Walked.{flags_from, present_of};
ghost use Rattle.passing.specs.Ended.{Ended, in_range};
ghost use Rattle.passing.specs.Passing.{passed, passed_says, pass_answer};

use answers::{Reason, Refusal};
use basics::less;
use types::column;
use types::layout::{
    BIAS, BIAS_SIGNED, CHOICE, COUNT, FIRST, KIND, LOWEST, MARK, ROWS, SEQUENCE, SPAN,
};
use walking::{past, plain};

// Passes over the value of the type of `row` that stands in `sheet` at `place`: where it ends, or why none stands there. The table is
// lent as `rows`, so that a caller that passes often takes it once.
pub fn pass(rows: &[u32], row: usize, sheet: &[i64], place: usize) -> Result<usize, Refusal>
    ensures answer { result ≡ passed rows.now row sheet.now place }
    ensures says { passed_says result ≡ pass_answer rows.now row sheet.now place }
{
    if ROWS <= row {
        return Err(Refusal::new(Reason::UnknownType, 0));
    }
    if sheet.len() < place {
        return no(sheet.len());
    }
    walk(rows, row + 1, row, sheet, place)
}

// The value of the cell `k` of `cells`; 0 past the end, and of a negative one.
pub fn value(cells: &[i64], k: usize) -> u64
    ensures { result ≡ cell_at cells.now k }
{
    if cells.len() <= k {
        return 0;
    }
    let cell = cells[k];
    if cell < 0 {
        return 0;
    }
    cell as u64
}

// Whether `cell` is in a range: `low` is its lowest value as the table keeps it, the distance from the lowest 32-bit number, and `span`
// its highest minus its lowest.
fn inside(cell: i64, low: usize, span: usize) -> bool
    requires { (low < 2 ^ 32) × (span < 2 ^ 32) }
    ensures { result ≡ in_range span (cell -ℤ lowest_of low) }
{
    let lowest = low as i64 - BIAS_SIGNED;
    if cell < lowest {
        return false;
    }
    if lowest + (span as i64) < cell {
        return false;
    }
    true
}

// No value: the cell `place` shows it.
fn no(place: usize) -> Result<usize, Refusal>
    ensures { result ≡ Err (no_value place) }
{
    Err(Refusal::new(Reason::NoValue, place))
}

// Passes over the cell `k` of `cells`, a whole number of the range `low` to `low` plus `span`; `low` is kept as the table keeps it.
fn number(cells: &[i64], k: usize, low: usize, span: usize) -> Result<usize, Refusal>
    requires { (low < 2 ^ 32) × (span < 2 ^ 32) }
    ensures { Ended (length cells.now) (write_whole (field (lowest_of low) span) cells.now k) result }
{
    if cells.len() <= k {
        return no(cells.len());
    }
    if inside(cells[k], low, span) {
        return Ok(k + 1);
    }
    no(k)
}

// Passes over `n` whole numbers of the range `low` to `low` plus `span`, one behind the other from `k` on.
fn run(low: usize, span: usize, n: usize, cells: &[i64], mut k: usize) -> Result<usize, Refusal>
    requires { (k ≤ length cells.now) × (low < 2 ^ 32) × (span < 2 ^ 32) }
    ensures { Ended (length cells.now) (times n (write (num (field (lowest_of low) span))) cells.now k) result }
{
    for _ in 0..n {
        k = number(cells, k, low, span)?;
    }
    Ok(k)
}

// Whether a component with this `mark` is there: its presence cell at `p` of `cells`, or 1 where it has none.
pub fn present(mark: usize, cells: &[i64], p: usize) -> u64
    ensures { result ≡ present_of mark (cell_at cells.now p) }
{
    if mark == 0 { 1 } else { value(cells, p) }
}

// Passes over the presence cells, from `k` on, of those of the `n` components from row `first` on that are OPTIONAL.
fn presence(
    rows: &[u32],
    first: usize,
    n: usize,
    cells: &[i64],
    mut k: usize,
) -> Result<usize, Refusal>
    requires { (k ≤ length cells.now) × (first < 2 ^ 32) × (n < 2 ^ 32) }
    ensures { (look : ℕ → Ty) → Ended (length cells.now) (flags (fields_of (root_at rows.now) look first n) writer cells.now k) result }
{
    let end = first + n;
    for f in first..end {
        if column(rows, f, MARK) != 0 {
            k = number(cells, k, BIAS, 1)?;
        }
    }
    Ok(k)
}

// Passes over a value of the type of `row`, in which types are nested at most `depth` deep, from `k` on. An extension bit takes no cell,
// so that the row's mark is not asked for. `rows` and `cells` stay two parameters of this cycle: of a struct with both, each contract would
// say `self.entry.rows.now` and `self.entry.cells.now`.
#[cycle(alternative_components_items_sequence_series_walk)]
fn walk(rows: &[u32], depth: usize, row: usize, cells: &[i64], k: usize) -> Result<usize, Refusal>
    requires { k ≤ length cells.now }
    ensures { Ended (length cells.now) (write (type_at (root_at rows.now) depth row) cells.now k) result }
{
    if depth == 0 {
        return Ok(k);
    }
    let kind = column(rows, row, KIND);
    let span = column(rows, row, SPAN);
    if kind < SEQUENCE {
        return number(cells, k, column(rows, row, LOWEST), span);
    }
    let first = column(rows, row, FIRST);
    if kind == SEQUENCE {
        return sequence(rows, depth - 1, first, column(rows, row, COUNT), cells, k);
    }
    if kind == CHOICE {
        return alternative(rows, depth - 1, first, span, cells, k);
    }
    series(
        rows,
        depth - 1,
        column(rows, row, LOWEST),
        span,
        first,
        cells,
        k,
    )
}

// Passes over a sequence of the `n` components from row `f`: presence cells, then the components that are there.
#[cycle(alternative_components_items_sequence_series_walk)]
fn sequence(
    rows: &[u32],
    depth: usize,
    f: usize,
    n: usize,
    cells: &[i64],
    k: usize,
) -> Result<usize, Refusal>
    requires { (k ≤ length cells.now) × (f < 2 ^ 32) × (n < 2 ^ 32) }
    ensures { Ended (length cells.now) (write (seq (fields_of (root_at rows.now) (type_at (root_at rows.now) depth) f n)) cells.now k) result }
{
    let at = presence(rows, f, n, cells, k)?;
    components(rows, depth, f, n, k, cells, at)
}

// Passes over those of the `n` components from row `first` on that are there, from `k` on. Their presence cells stand from `flag` on.
#[cycle(alternative_components_items_sequence_series_walk)]
fn components(
    rows: &[u32],
    depth: usize,
    first: usize,
    n: usize,
    mut flag: usize,
    cells: &[i64],
    mut k: usize,
) -> Result<usize, Refusal>
    requires { (k ≤ length cells.now) × (flag ≤ length cells.now) × (first < 2 ^ 32) × (n < 2 ^ 32) }
    ensures { Ended (length cells.now)
        (fields (fields_of (root_at rows.now) (type_at (root_at rows.now) depth) first n) (flags_from (fields_of (root_at rows.now) (type_at (root_at rows.now) depth) first n) (cell_at cells.now) flag) writer cells.now k) result }
{
    let end = first + n;
    for f in first..end {
        let mark = column(rows, f, MARK);
        let here = present(mark, cells, flag);
        flag = past(mark, flag);
        if here != 0 {
            k = walk(rows, depth, column(rows, f, FIRST), cells, k)?;
        }
    }
    Ok(k)
}

// Passes over a choice of the `n` + 1 alternatives from row `f`: its index, then the alternative.
#[cycle(alternative_components_items_sequence_series_walk)]
fn alternative(
    rows: &[u32],
    depth: usize,
    f: usize,
    n: usize,
    cells: &[i64],
    k: usize,
) -> Result<usize, Refusal>
    requires { (f < 2 ^ 32) × (n < 2 ^ 32) }
    ensures { Ended (length cells.now) (write (choice 0 (alts_of (root_at rows.now) (type_at (root_at rows.now) depth) f n)) cells.now k) result }
{
    let at = number(cells, k, BIAS, n)?;
    let index = value(cells, k) as usize;
    walk(rows, depth, column(rows, f + index, FIRST), cells, at)
}

// Passes over a list of items of the type of row `t`, whose size is `low` to `low` plus `span`: the size where sizes differ, then the items.
#[cycle(alternative_components_items_sequence_series_walk)]
fn series(
    rows: &[u32],
    depth: usize,
    low: usize,
    span: usize,
    t: usize,
    cells: &[i64],
    k: usize,
) -> Result<usize, Refusal>
    requires { (k ≤ length cells.now) × (low < 2 ^ 32) × (span < 2 ^ 32) }
    ensures { Ended (length cells.now) (write (list 0 (low - bias) span (type_at (root_at rows.now) depth t)) cells.now k) result }
{
    let least = less(low, BIAS);
    if span == 0 {
        return items(rows, depth, t, least, cells, k);
    }
    let at = number(cells, k, least + BIAS, span)?;
    items(rows, depth, t, value(cells, k) as usize, cells, at)
}

// Passes over `n` items of the type of row `t`, one behind the other from `k` on.
#[cycle(alternative_components_items_sequence_series_walk)]
fn items(
    rows: &[u32],
    depth: usize,
    t: usize,
    n: usize,
    cells: &[i64],
    mut k: usize,
) -> Result<usize, Refusal>
    requires { k ≤ length cells.now }
    ensures { Ended (length cells.now) (times n (write (type_at (root_at rows.now) depth t)) cells.now k) result }
{
    if plain(rows, depth, t) {
        return run(column(rows, t, LOWEST), column(rows, t, SPAN), n, cells, k);
    }
    for _ in 0..n {
        k = walk(rows, depth, t, cells, k)?;
    }
    Ok(k)
}
