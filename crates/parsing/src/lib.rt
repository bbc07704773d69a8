// Sheets as text: the edition, the type number and the cells, one to a line, from bytes.
#![tactic(auto)]

ghost use Rattle.std.specs.Prelude.{◌≡◌, ◌+◌, ◌-◌, ◌*◌, ◌≤◌, ◌<◌, ◌^◌, ◌==◌, length, drop, set, position, SomeIff};
ghost use Rattle.std.specs.Char.{is_ascii_digit};
ghost use Rattle.std.specs.List.{list_all};
ghost use Rattle.printing.specs.Characters.{line_end, digit_zero};
ghost use Rattle.printing.specs.Buffers.{printed, printed_says, print_answer, buffer_after, Appended};
ghost use Rattle.parsing.specs.Lines.{lines, line_length};
ghost use Rattle.parsing.specs.Numbers.{some_digits, digits_of, cell_above, cell_below, whole_below, cell_of, whole_of, edition_of};
ghost use Rattle.parsing.specs.Sheets.{error_at, cells_at, parsed, cells_after, typed_lines, placed, listed, behind_first, after_parsing, cells_of, Filled};
ghost use Rattle.parsing.specs.Complaints.{complaint, longest_complaint};
ghost use Rattle.parsing.specs.Says.{parsed_says, parse_answer};

use basics::least;
use printing::{NoRoom, append, append_sentence};

// The bytes of the longest complaint, `line N is no 64-bit number` with its end of line: a number of 64 bits has at most 20 digits.
pub const COMPLAINT: usize = 46;

// The lines of a text, counted from 1: the edition, the type number, and the first of the cells.
const EDITION_LINE: usize = 1;

const TYPE_LINE: usize = 2;

const FIRST_CELL_LINE: usize = 3;

// Why a line is no number: it is none, or it is one of more than 64 bits.
#[derive(Clone, Copy, Debug, PartialEq, Eq, Hash)]
pub enum NumberError {
    NoNumber,
    OutOfRange,
}

// What stands beside a sheet: the edition and the type number by which it is written.
#[derive(Clone, Copy)]
pub struct Label {
    pub edition: u64,
    pub type_number: u64,
}

// Why a text is no sheet: the first line is no edition; or the first other wrong line, counted from 1, and why; or how many cells are needed
// where fewer are lent.
#[derive(Clone, Copy, Debug, PartialEq, Eq, Hash)]
pub enum ParseError {
    NoEdition,
    NoNumber(usize),
    OutOfRange(usize),
    NoRoom(usize),
}

impl NumberError {
    // Why a text is no sheet whose line `line` is no number.
    #[tactic(auto, unfolding(crate::specs::Sheets::error_at))]
    fn at(self, line: usize) -> ParseError
        ensures { result ≡ error_at self line }
    {
        match self {
            NumberError::NoNumber => ParseError::NoNumber(line),
            NumberError::OutOfRange => ParseError::OutOfRange(line),
        }
    }
}

// Takes a sheet from the text `input` into `cells`, and answers its edition, its type number and how many cells it has. On an error no cell
// is changed.
pub fn parse_sheet(input: &[u8], cells: &mut [i64]) -> Result<(Label, usize), ParseError>
    ensures answer { result ≡ parsed input.now (length cells.old) }
    ensures cells { cells.new ≡ cells_after input.now cells.old }
    ensures says { parsed_says result ≡ parse_answer input.now (length cells.old) }
{
    let end = line_end(input, 0);
    match edition_of(&input[..end]) {
        Ok(edition) => typed_sheet(edition, input, least(end + 1, input.len()), cells),
        Err(NumberError::NoNumber) => Err(ParseError::NoEdition),
        Err(NumberError::OutOfRange) => Err(ParseError::OutOfRange(EDITION_LINE)),
    }
}

// Takes the sheet of this `edition` whose type number stands in the line of `input` from the place `from` on, and its cells in those
// behind it, into `cells`.
fn typed_sheet(
    edition: u64,
    input: &[u8],
    from: usize,
    cells: &mut [i64],
) -> Result<(Label, usize), ParseError>
    requires { from ≤ length input.now }
    ensures answer { result ≡ typed_lines edition (lines (drop from input.now)) (length cells.old) }
    ensures cells { cells.new ≡ after_parsing result (listed (cells_of cells_at (behind_first (lines (drop from input.now))))) cells.old }
{
    let end = line_end(input, from);
    match whole_of(&input[from..end]) {
        Ok(type_number) => place_cells(
            Label {
                edition,
                type_number,
            },
            input,
            end + 1,
            cells,
        ),
        Err(why) => Err(why.at(TYPE_LINE)),
    }
}

// Prints to `out` what is wrong with a text that `parsed` says is no sheet; for a sheet nothing. Without room nothing is changed;
// COMPLAINT bytes are always enough.
pub fn print_wrong(
    parsed: Result<(Label, usize), ParseError>,
    out: &mut [u8],
) -> Result<usize, NoRoom>
    ensures length { result ≡ printed (complaint parsed) (length out.old) }
    ensures bytes { out.new ≡ buffer_after (complaint parsed) out.old }
    ensures room { length (complaint parsed) ≤ longest_complaint }
    ensures says { printed_says result ≡ print_answer (complaint parsed) (length out.old) }
{
    let needed = append_wrong(parsed, &mut [], 0);
    if out.len() < needed {
        return Err(NoRoom { needed });
    }
    Ok(append_wrong(parsed, out, 0))
}

// Puts what `parsed` says is wrong into `out` at the place `at`, and answers the next place.
fn append_wrong(parsed: Result<(Label, usize), ParseError>, out: &mut [u8], at: usize) -> usize
    ensures text { Appended (complaint parsed) out.old at result out.new }
    ensures room { length (complaint parsed) ≤ longest_complaint }
{
    match parsed {
        Ok(_) => at,
        Err(why) => append_error(why, out, at),
    }
}

// Puts the sentence of `why` into `out` at the place `at`, and answers the next place.
fn append_error(why: ParseError, out: &mut [u8], at: usize) -> usize
    ensures text { Appended (complaint (Err why)) out.old at result out.new }
    ensures room { length (complaint (Err why)) ≤ longest_complaint }
{
    match why {
        ParseError::NoEdition => append(b"line 1 is no edition\n", out, at),
        ParseError::NoNumber(line) => append_sentence(b"line ", line, b" is no number\n", out, at),
        ParseError::OutOfRange(line) => {
            append_sentence(b"line ", line, b" is no 64-bit number\n", out, at)
        }
        ParseError::NoRoom(needed) => append_sentence(
            b"no room for ",
            needed,
            b" cells\n",
            out,
            at,
        ),
    }
}

// Takes the cells of the lines of `input` from the place `from` on into `cells`, and answers a sheet with the label `of` or why there is
// none: a first pass over no cells learns the answer, a second one fills those that are lent.
#[tactic(auto, using(crate::proofs::Filling::pass_wrong), unfolding(crate::specs::Sheets::after_parsing))]
fn place_cells(
    of: Label,
    input: &[u8],
    from: usize,
    cells: &mut [i64],
) -> Result<(Label, usize), ParseError>
    requires { from ≤ length input.now + 1 }
    ensures answer { result ≡ placed of (length cells.old) (cells_of cells_at (lines (drop from input.now))) }
    ensures cells { cells.new ≡ after_parsing result (listed (cells_of cells_at (lines (drop from input.now)))) cells.old }
{
    let (_, count) = fill_cells(of, input, from, &mut [])?;
    if cells.len() < count {
        return Err(ParseError::NoRoom(count));
    }
    fill_cells(of, input, from, cells)
}

// Fills `cells`, as far as they are there, from the lines of `input` from the place `from` on, and answers a sheet with the label `of` and
// as many cells as there are lines, or the first wrong line. The first of these lines is the third of the text.
fn fill_cells(
    of: Label,
    input: &[u8],
    from: usize,
    cells: &mut [i64],
) -> Result<(Label, usize), ParseError>
    requires { from ≤ length input.now + 1 }
    ensures { Filled of (cells_of cells_at (lines (drop from input.now))) cells.old result cells.new }
{
    let mut at = from;
    let mut count: usize = 0;
    while at < input.len() {
        let end = line_end(input, at);
        match cell_of(&input[at..end]) {
            Ok(value) => {
                put(cells, count, value);
                count += 1;
                at = end + 1;
            }
            Err(why) => return Err(why.at(count + FIRST_CELL_LINE)),
        }
    }
    Ok((of, count))
}

// Stores `value` as the cell at the place `at`, where `cells` has it.
fn put(cells: &mut [i64], at: usize, value: i64)
    ensures { cells.new ≡ set cells.old at value }
{
    if at < cells.len() {
        cells[at] = value;
    }
}

// Where the line of `input` ends that begins at the place `at`.
fn line_end(input: &[u8], at: usize) -> usize
    requires { at ≤ length input.now }
    ensures { result ≡ at + line_length (drop at input.now) }
{
    match line_break(&input[at..]) {
        Some(length) => at + length,
        None => input.len(),
    }
}

// The place of the first end of a line in `text`.
fn line_break(text: &[u8]) -> Option<usize>
    ensures { result ≡ position (λ b. b == line_end) text.now }
{
    text.iter().position(|b| *b == b'\n')
}

// What `line` gives as a cell.
#[tactic(auto, using(crate::proofs::Numbers::cell_stripped, crate::proofs::Numbers::cell_unstripped), unfolding(crate::specs::Numbers::cell_above, crate::specs::Numbers::cell_below))]
fn cell_of(line: &[u8]) -> Result<i64, NumberError>
    ensures { result ≡ cell_of line.now }
{
    match line.strip_prefix(b"-") {
        Some(rest) => below_zero(digits(rest)?),
        None => above_zero(digits(line)?),
    }
}

// What `line` gives as a number without a sign.
#[tactic(auto, using(crate::proofs::Numbers::whole_stripped, crate::proofs::Numbers::whole_unstripped), unfolding(crate::specs::Numbers::whole_below))]
fn whole_of(line: &[u8]) -> Result<u64, NumberError>
    ensures { result ≡ whole_of line.now }
{
    match line.strip_prefix(b"-") {
        Some(rest) => only_zero(digits(rest)?),
        None => digits(line),
    }
}

// What `line` gives as an edition: the word, a blank, and a number.
fn edition_of(line: &[u8]) -> Result<u64, NumberError>
    ensures { result ≡ edition_of line.now }
{
    match line.strip_prefix(b"edition ") {
        Some(rest) => whole_of(rest),
        None => Err(NumberError::NoNumber),
    }
}

// The number `n` behind a minus sign, as a cell.
#[tactic(auto, using(crate::proofs::Numbers::below_fits, crate::proofs::Numbers::below_large), unfolding(crate::specs::Numbers::cell_below))]
fn below_zero(n: u64) -> Result<i64, NumberError>
    ensures { result ≡ cell_below (Ok n) }
{
    0i64.checked_sub_unsigned(n).ok_or(NumberError::OutOfRange)
}

// The number `n` without a sign, as a cell.
#[tactic(auto, using(crate::proofs::Numbers::above_fits, crate::proofs::Numbers::above_large), unfolding(crate::specs::Numbers::cell_above))]
fn above_zero(n: u64) -> Result<i64, NumberError>
    ensures { result ≡ cell_above (Ok n) }
{
    i64::try_from(n).map_err(|_| NumberError::OutOfRange)
}

// The number `n` behind a minus sign, as a number without a sign: only 0 is one.
#[tactic(auto, unfolding(crate::specs::Numbers::whole_below))]
fn only_zero(n: u64) -> Result<u64, NumberError>
    ensures { result ≡ whole_below (Ok n) }
{
    if n == 0 {
        Ok(0)
    } else {
        Err(NumberError::OutOfRange)
    }
}

// What `text` gives as a number, where it is one or more digits.
fn digits(text: &[u8]) -> Result<u64, NumberError>
    ensures { result ≡ digits_of text.now }
{
    if !some_digits(text) {
        return Err(NumberError::NoNumber);
    }
    let mut n: u64 = 0;
    for b in text {
        let Some(more) = with_digit(n, *b) else {
            return Err(NumberError::OutOfRange);
        };
        n = more;
    }
    Ok(n)
}

// The number of the digits of `n` and then `b`, where it fits 64 bits.
fn with_digit(n: u64, b: u8) -> Option<u64>
    ensures { SomeIff result (n * 10 + (b - digit_zero) < 2 ^ 64) (n * 10 + (b - digit_zero)) }
{
    n.checked_mul(10)?
        .checked_add(u64::from(b.saturating_sub(b'0')))
}

// Whether `text` is one or more digits.
#[tactic(auto, using(crate::proofs::Numbers::some_there, crate::proofs::Numbers::some_none))]
fn some_digits(text: &[u8]) -> bool
    ensures { result ≡ some_digits text.now }
{
    !text.is_empty() && all_digits(text)
}

// Whether every byte of `text` is a digit.
fn all_digits(text: &[u8]) -> bool
    ensures { result ≡ list_all is_ascii_digit text.now }
{
    text.iter().all(|b| b.is_ascii_digit())
}
