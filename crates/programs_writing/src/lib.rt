// What the writing program does with its input, and a batch for writing with a record, on slices: everything that they decide is here.
#![tactic(auto)]

ghost use Rattle.std.specs.Prelude.{◌≡◌, ◌/◌, ◌^◌, ◌≤◌, ◌<◌, length, IfSome};
ghost use Rattle.std.proofs.lemmas.List.Edits.{sets};
ghost use Rattle.answers.specs.Answers.{answered};
ghost use Rattle.basics.specs.Lists.{filled};
ghost use Rattle.printing.specs.Texts.{written_text, written_room};
ghost use Rattle.parsing.specs.Complaints.{complaint, longest_complaint};
ghost use Rattle.records.specs.Records.{longest};
ghost use Rattle.programs.specs.Batches.{shown};
ghost use Rattle.programs_writing.specs.Cells.{four_bytes, cell_in, cells_in};
ghost use Rattle.programs_writing.specs.Sheets.{sheet_text, write_text, write_usage, content_text, written_record};

use answers::{Answer, Done, Failure, Reason, Refusal};
use parsing::{Label, ParseError};
use printing::append;
use programs::{MESSAGE, MESSAGE_CELLS, TYPE, USAGE};
use records::two_bytes;

// The longest text that the writing program takes: an edition, a type number and MESSAGE_CELLS cells have at most 344,114 bytes, and the
// rest is for needless zeros.
pub const MOST_TEXT: usize = 393215;

// The bytes that the writing program reads: one more than the longest text, so that it sees that a text is longer.
pub const WRITE_INPUT: usize = MOST_TEXT + 1;

// The bytes of the longest text that writing gives: a refusal's, and two for each byte of a message.
pub const WRITTEN_ROOM: usize = printing::REFUSAL + 2 * MESSAGE;

// The bytes of an edition, and of an edition and a type number, in front of the cells of a record of a batch of sheets.
const EDITION: usize = 2;

const LABEL: usize = EDITION + TYPE;

// The cells of a record of a batch of sheets: the longest has 8,191.
const RECORD_CELLS: usize = 8192;

// How many numbers two bytes and four bytes hold.
const TWO_BYTES: u64 = 65536;

const FOUR_BYTES: u64 = 4294967296;

// The largest number of 64 bits, and the first whose two's complement is below 0.
const LARGEST: u64 = 18446744073709551615;

const BELOW_ZERO: u64 = 9223372036854775808;

// How the writing program is used: puts the text into `out`, and answers how many bytes that is.
pub fn put_write_usage(out: &mut [u8; USAGE]) -> usize
    ensures length { result ≡ length write_usage }
    ensures bytes { out.new ≡ filled write_usage out.old }
{
    append(
        b"use: knotsaffron_write < INPUT\nINPUT is a sheet as text: a line edition 1, the type number, then a cell on each line.\nIts message is printed in hexadecimal, or what is wrong: docs/PROGRAMS.md says more.\n",
        out,
        0,
    )
}

// The writing program: puts what it prints for `input`, a sheet as text, into `out`, and answers how many bytes that is.
pub fn write_program(input: &[u8], out: &mut [u8; WRITTEN_ROOM]) -> usize
    ensures length { result ≡ length (write_text input.now) }
    ensures bytes { out.new ≡ filled (write_text input.now) out.old }
{
    if MOST_TEXT < input.len() {
        return append(b"text of more than 393215 bytes\n", out, 0);
    }
    let mut cells = [0i64; MESSAGE_CELLS];
    let mut message = [0u8; MESSAGE];
    answer_sheet(input, &mut cells, &mut message, out)
}

// A batch for writing: puts what the writing program prints for the sheet in the first record of `held`, an edition, a type number and
// cells in bytes, into `out`, and answers how many bytes that is. For a record that is not whole it puts nothing there and answers None, and no
// other record follows.
pub fn write_record(held: &[u8], out: &mut [u8; WRITTEN_ROOM]) -> Option<usize>
    ensures answer { result ≡ shown (written_record held.now) held.now }
    ensures bytes { out.new ≡ filled (written_record held.now) out.old }
    ensures inside { IfSome result (λ n. n ≤ length out.old) }
{
    match records::first_record(held) {
        Ok(Some(record)) => Some(write_content(&held[record.start..record.end], out)),
        Ok(None) => None,
        Err(_) => None,
    }
}

// Puts what the writing program prints for the text `input` into `out`, where `cells` and `message` are lent for the sheet and for its
// message, and answers how many bytes that is.
fn answer_sheet(input: &[u8], cells: &mut [i64], message: &mut [u8], out: &mut [u8]) -> usize
    requires { written_room (length message.old) ≤ length out.old }
    ensures length { result ≡ length (sheet_text input.now cells.old message.old) }
    ensures bytes { out.new ≡ filled (sheet_text input.now cells.old message.old) out.old }
{
    match parsing::parse_sheet(input, cells) {
        Ok((of, count)) => {
            let answer = writer::write(of.edition, of.type_number, &cells[..count], message);
            put_written(answer, message, out)
        }
        Err(why) => put_wrong(Err(why), out),
    }
}

// Puts what the writing program prints for `content`, an edition, a type number and cells in bytes, into `out`, and answers how many bytes
// that is.
fn write_content(content: &[u8], out: &mut [u8; WRITTEN_ROOM]) -> usize
    requires { length content.now ≤ longest }
    ensures length { result ≡ length (content_text content.now) }
    ensures bytes { out.new ≡ filled (content_text content.now) out.old }
{
    let mut message = [0u8; MESSAGE];
    if content.len() < LABEL {
        let refused = Failure::Refused(Refusal::new(Reason::UnknownType, 0));
        return put_written(Err(refused), &[], out);
    }
    let mut sheet = [0i64; RECORD_CELLS];
    let count = fill(&content[LABEL..], &mut sheet);
    let edition = two_bytes(content);
    let type_number = two_bytes(&content[EDITION..]);
    let answer = writer::write(edition, type_number, &sheet[..count], &mut message);
    put_written(answer, &message, out)
}

// Puts the cells in `bytes` into `sheet` from its first cell on, and answers how many there are.
fn fill(bytes: &[u8], sheet: &mut [i64]) -> usize
    requires { length bytes.now / 8 ≤ length sheet.old }
    ensures count { result ≡ length bytes.now / 8 }
    ensures cells { sheet.new ≡ sets sheet.old 0 (cells_in bytes.now) }
{
    let count = bytes.len() / 8;
    for i in 0..count {
        let at = i * 8;
        sheet[i] = cell_in(&bytes[at..]);
    }
    count
}

// The cell in the first eight of `bytes`, most significant first, in two's complement.
fn cell_in(bytes: &[u8]) -> i64
    requires { 8 ≤ length bytes.now }
    ensures { result ≡ cell_in bytes.now }
{
    let n = four_bytes(bytes) * FOUR_BYTES + four_bytes(&bytes[4..]);
    if n < BELOW_ZERO {
        return n as i64;
    }
    -1 - (LARGEST - n) as i64
}

// The number in the first four of `bytes`, most significant first.
fn four_bytes(bytes: &[u8]) -> u64
    requires { 4 ≤ length bytes.now }
    ensures { (result ≡ four_bytes bytes.now) × (result < 2 ^ 32) }
{
    two_bytes(bytes) * TWO_BYTES + two_bytes(&bytes[2..])
}

// Puts what writing answered, with the first of `bytes`, into `out`, and answers how many bytes the text has.
fn put_written(answer: Result<Done, Failure>, bytes: &[u8], out: &mut [u8]) -> usize
    requires { written_room (length bytes.now) ≤ length out.old }
    ensures length { result ≡ length (written_text (answered answer) bytes.now) }
    ensures bytes { out.new ≡ filled (written_text (answered answer) bytes.now) out.old }
{
    match printing::print_written(Answer::from(answer), bytes, out) {
        Ok(length) => length,
        Err(_) => 0,
    }
}

// Puts what `parsed` says is wrong with a text into `out`, and answers how many bytes that is.
fn put_wrong(parsed: Result<(Label, usize), ParseError>, out: &mut [u8]) -> usize
    requires { longest_complaint ≤ length out.old }
    ensures length { result ≡ length (complaint parsed) }
    ensures bytes { out.new ≡ filled (complaint parsed) out.old }
{
    match parsing::print_wrong(parsed, out) {
        Ok(length) => length,
        Err(_) => 0,
    }
}
