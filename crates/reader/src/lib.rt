// Reading a message by its type number, and a single field by its row or by its width.
#![tactic(auto)]

ghost use Rattle.std.specs.Prelude.{◌≡◌, ◌≤◌, ◌<◌, ◌^◌, length, pos, ◌+ℤ◌};
ghost use Rattle.answers.specs.Answers.{answered, read_told};
ghost use Rattle.bits.specs.Bytes.{bits_of};
ghost use Rattle.bits.specs.Limits.{most_bytes};
ghost use Rattle.bits.specs.Says.{fetched_says};
ghost use Rattle.types.specs.Shape.{field, told};
ghost use Rattle.types.specs.Shape.Ty.{num};
ghost use Rattle.types.specs.Table.{lowest_of, value_outside};
ghost use Rattle.meaning.specs.Reading.{read};
ghost use Rattle.meaning.specs.Messages.{read_message, told_reading, sheet_after};
ghost use Rattle.meaning.specs.Fields.{field_at, field_got, code_at, held_width};
ghost use Rattle.meaning.specs.Says.{field_says, field_answer, code_answer};

use answers::{Done, Failure, Reading, Reason, Refusal};
use bits::{Cursor, MOST_BYTES, MOST_WIDTH};
use reading::read_row;
use types::layout::{BIAS_SIGNED, KIND, LOWEST, MARK, ROWS, SEQUENCE, SPAN};
use types::{FIRST_EDITION, column};

// Reads the message in `bytes`, of the type with this type number, into the cells of `sheet`, and answers how many bits and cells it
// has, or why nothing was handed over, with the edition and the type number beside that. A refusal changes no cell.
pub fn read(type_number: u64, bytes: &[u8], sheet: &mut [i64]) -> Reading
    ensures answer { read_told result ≡ told_reading type_number bytes.now sheet.old }
    ensures cells { sheet.new ≡ sheet_after type_number bytes.now sheet.old }
{
    let answer = read_typed(type_number, bytes, sheet);
    Reading {
        edition: FIRST_EDITION,
        type_number,
        answer,
    }
}

// What `read` answers of the message itself.
fn read_typed(type_number: u64, bytes: &[u8], sheet: &mut [i64]) -> Result<Done, Failure>
    ensures answer { answered result ≡ read_message type_number bytes.now sheet.old }
    ensures cells { sheet.new ≡ sheet_after type_number bytes.now sheet.old }
{
    let Some(row) = types::row_of(type_number) else {
        return Err(Failure::Refused(Refusal::new(Reason::UnknownType, 0)));
    };
    read_row(row, bytes, sheet)
}

// Reads the whole number or enumeration of `row` in `bytes` at `cursor`: its value with the cursor behind it, or the refusal. A single
// field needs no walk: its extension bit, where the row has one, and its number are fetched.
pub fn read_field(row: usize, bytes: &[u8], cursor: Cursor) -> Result<(i64, Cursor), Refusal>
    ensures answer { result ≡ field_at row bytes.now cursor.at }
    ensures says { field_says result ≡ field_answer row bytes.now cursor.at }
{
    if ROWS <= row {
        return Err(Refusal::new(Reason::UnknownType, 0));
    }
    let rows = types::rows();
    let kind = column(&rows, row, KIND);
    if SEQUENCE <= kind {
        return Err(Refusal::new(Reason::UnknownType, 0));
    }
    if MOST_BYTES < bytes.len() {
        return Err(Refusal::new(Reason::TooLong, 0));
    }
    let low = column(&rows, row, LOWEST);
    let span = column(&rows, row, SPAN);
    if column(&rows, row, MARK) == 0 {
        return number(kind, row, low, span, bytes, cursor);
    }
    let (bit, behind) = cursor.fetch(bytes, 1)?;
    if bit != 0 {
        return Err(Refusal::new(Reason::Extended, cursor.at));
    }
    number(kind, row, low, span, bytes, behind)
}

// Reads the number of the range `low` to `low` plus `span` in `bytes` at `cursor`, of the type in `row`, which is of this `kind`.
fn number(
    kind: usize,
    row: usize,
    low: usize,
    span: usize,
    bytes: &[u8],
    cursor: Cursor,
) -> Result<(i64, Cursor), Refusal>
    requires { (length bytes.now ≤ most_bytes) × (low < 2 ^ 32) × (span < 2 ^ 32) }
    ensures { result ≡ field_got (read (num (told (value_outside kind) row (field (lowest_of low) span))) (bits_of bytes.now) cursor.at) }
{
    let (n, behind) = cursor.fetch(bytes, bits::width(span as u64))?;
    if (span as u64) < n {
        return Err(Refusal::carrying(types::value_outside(kind), row, 0, cursor.at));
    }
    Ok((value_of(low, n), behind))
}

// The value with the code `n`: `n` above the lowest value, which the table keeps as `low`, its distance from the lowest 32-bit number.
fn value_of(low: usize, n: u64) -> i64
    requires { (low < 2 ^ 32) × (n < 2 ^ 32) }
    ensures { result ≡ lowest_of low +ℤ pos n }
{
    (low as u64 + n) as i64 - BIAS_SIGNED
}

// Reads the code of `width` bits in `bytes` at `cursor`, where some field of the table has that width: the code with the cursor
// behind it, or the refusal.
pub fn read_code(width: u32, bytes: &[u8], cursor: Cursor) -> Result<(u64, Cursor), Refusal>
    ensures answer { result ≡ code_at width bytes.now cursor.at }
    ensures says { fetched_says result ≡ code_answer width bytes.now cursor.at }
{
    if held(width) {
        return cursor.fetch(bytes, width);
    }
    Err(Refusal::new(Reason::UnknownType, 0))
}

// The widths that fields of the table have: bit w is 1 where a field is w bits wide.
const HELD_WIDTHS: u64 = 6464864254;

// Whether some field of the table is `width` bits wide.
#[tactic(auto, using(crate::proofs::Widths::none_wider, crate::proofs::Widths::held_up_to))]
fn held(width: u32) -> bool
    ensures { result ≡ held_width width }
{
    width <= MOST_WIDTH && (HELD_WIDTHS >> width) % 2 == 1
}
