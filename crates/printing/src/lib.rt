// What the programs print: the text of an answer, put into a lent buffer.
#![tactic(auto)]

ghost use Rattle.std.specs.Prelude.{◌≡◌, List, [], ◌∷◌, ◌++◌, ◌+◌, ◌*◌, ◌<◌, ◌≤◌, ℕ, length, take};
ghost use Rattle.std.specs.Borrow.{MutBor};
ghost use Rattle.printing.specs.Digits.{decimal, signed, hex_digit};
ghost use Rattle.printing.specs.Texts.{read_text, written_text, refused_text, cell_lines, hexadecimal, longest_cell_line, read_room, written_room};
ghost use Rattle.printing.specs.Buffers.{printed, printed_says, print_answer, buffer_after, Appended};

use answers::Answer;
use basics::least;

// The bytes of the longest `edition N` and `accepted N bits M cells` together, of the longest line of a cell and of the longest
// `refused N at cell P`, each with its end of line: a number of 64 bits has at most 20 digits.
pub const FIRST_LINES: usize = 91;

pub const CELL_LINE: usize = 21;

pub const REFUSAL: usize = 58;

// A text has no room in the buffer that is lent; it needs so many bytes.
#[derive(Clone, Copy, Debug, PartialEq, Eq, Hash)]
pub struct NoRoom {
    pub needed: usize,
}

// Prints to `out` what reading a message of this `edition` answered: the edition, the counts and the cells of `sheet`, or the refusal.
// Without room nothing is changed; FIRST_LINES bytes and CELL_LINE for each cell of `sheet` are always enough.
pub fn print_read(
    edition: u64,
    answer: Answer,
    sheet: &[i64],
    out: &mut [u8],
) -> Result<usize, NoRoom>
    ensures length { result ≡ printed (read_text edition answer sheet.now) (length out.old) }
    ensures bytes { out.new ≡ buffer_after (read_text edition answer sheet.now) out.old }
    ensures room { length (read_text edition answer sheet.now) ≤ read_room (length sheet.now) }
    ensures says { printed_says result ≡ print_answer (read_text edition answer sheet.now) (length out.old) }
{
    print(move |to| append_read(edition, answer, sheet, to, 0), out)
}

// Prints to `out` what writing a message answered: its bytes, the first of `bytes`, or the refusal. Without room nothing is
// changed; REFUSAL bytes and two for each of `bytes` are always enough.
pub fn print_written(answer: Answer, bytes: &[u8], out: &mut [u8]) -> Result<usize, NoRoom>
    ensures length { result ≡ printed (written_text answer bytes.now) (length out.old) }
    ensures bytes { out.new ≡ buffer_after (written_text answer bytes.now) out.old }
    ensures room { length (written_text answer bytes.now) ≤ written_room (length bytes.now) }
    ensures says { printed_says result ≡ print_answer (written_text answer bytes.now) (length out.old) }
{
    print(move |to| append_written(answer, bytes, to, 0), out)
}

// Prints to `out` the text that `append` puts into a buffer from its first byte on, and answers how many bytes it has: a first pass over
// no bytes counts them, a second one puts them there. Without room nothing is changed.
fn print<F: Fn(&mut [u8]) -> usize>(append: F, out: &mut [u8]) -> Result<usize, NoRoom>
    ghost text: { List ℕ }
    requires callable { F.IsAlwaysCallable append }
    requires appends { (before after : MutBor (List ℕ)) (next : ℕ) → F.post append before next after → Appended text before.now 0 next after.now }
    ensures length { result ≡ printed text (length out.old) }
    ensures bytes { out.new ≡ buffer_after text out.old }
    ensures says { printed_says result ≡ print_answer text (length out.old) }
    ensures called { (before after : MutBor (List ℕ)) × (next : ℕ) × F.post append before next after }
{
    let needed = append(&mut []);
    if out.len() < needed {
        return Err(NoRoom { needed });
    }
    Ok(append(out))
}

// Puts the text of an answer of reading by this `edition`, with the cells of `sheet`, into `out` at the place `at`, and answers the next
// place.
fn append_read(edition: u64, answer: Answer, sheet: &[i64], out: &mut [u8], at: usize) -> usize
    ensures text { Appended (read_text edition answer sheet.now) out.old at result out.new }
    ensures room { length (read_text edition answer sheet.now) ≤ read_room (length sheet.now) }
{
    if answer.number != 0 {
        return append_refusal(answer, b"bit", out, at);
    }
    let counts = append_sentence(b"edition ", edition as usize, b"\n", out, at);
    let bits = append(b"accepted ", out, counts);
    let after_bits = append_decimal(answer.bits as u64, out, bits);
    let cells = append(b" bits ", out, after_bits);
    let after_cells = append_decimal(answer.count as u64, out, cells);
    let lines = append(b" cells\n", out, after_cells);
    append_cells(sheet, answer.count, out, lines)
}

// Puts the text of an answer of writing, with the first of `bytes`, into `out` at the place `at`, and answers the next place.
fn append_written(answer: Answer, bytes: &[u8], out: &mut [u8], at: usize) -> usize
    ensures text { Appended (written_text answer bytes.now) out.old at result out.new }
    ensures room { length (written_text answer bytes.now) ≤ written_room (length bytes.now) }
{
    if answer.number != 0 {
        return append_refusal(answer, b"cell", out, at);
    }
    let end = append_hexadecimal(bytes, answer.count, out, at);
    append(b"\n", out, end)
}

// Puts the line of a refusal into `out` at the place `at`, with `unit`, in which the refusal's place is counted, and answers the
// next place. Every program's refusal is this line.
fn append_refusal(answer: Answer, unit: &[u8], out: &mut [u8], at: usize) -> usize
    ensures { Appended (refused_text unit.now answer) out.old at result out.new }
{
    let number = append(b"refused ", out, at);
    let after_number = append_decimal(answer.number, out, number);
    let word = append(b" at ", out, after_number);
    let blank = append(unit, out, word);
    let place = append(b" ", out, blank);
    let end = append_decimal(answer.place as u64, out, place);
    append(b"\n", out, end)
}

// Puts `byte` into `out` at the place `at`, and answers the next place. A place that the buffer does not have is counted only.
fn append_byte(byte: u8, out: &mut [u8], at: usize) -> usize
    ensures { Appended (byte ∷ []) out.old at result out.new }
{
    if at < out.len() {
        out[at] = byte;
        return at + 1;
    }
    basics::later(at, 1)
}

// Puts `text` into `out` at the place `at`, and answers the next place.
pub fn append(text: &[u8], out: &mut [u8], at: usize) -> usize
    ensures { Appended text.now out.old at result out.new }
{
    let mut next = at;
    for byte in text {
        next = append_byte(*byte, out, next);
    }
    next
}

// Puts the decimal digits of `n` into `out` at the place `at`, and answers the next place.
pub fn append_decimal(n: u64, out: &mut [u8], at: usize) -> usize
    ensures { Appended (decimal n) out.old at result out.new }
{
    if n < 10 {
        return append_byte(b'0' + n as u8, out, at);
    }
    let next = append_decimal(n / 10, out, at);
    append_byte(b'0' + (n % 10) as u8, out, next)
}

// Puts the words `first`, the digits of `n` and the words `last` into `out` at the place `at`, and answers the next place.
pub fn append_sentence(first: &[u8], n: usize, last: &[u8], out: &mut [u8], at: usize) -> usize
    ensures { Appended (first.now ++ decimal n ++ last.now) out.old at result out.new }
{
    let number = append(first, out, at);
    let rest = append_decimal(n as u64, out, number);
    append(last, out, rest)
}

// Puts the digits of `z`, behind a minus sign where it is below 0, into `out` at the place `at`, and answers the next place.
pub fn append_signed(z: i64, out: &mut [u8], at: usize) -> usize
    ensures { Appended (signed z) out.old at result out.new }
{
    if z < 0 {
        let digits = append_byte(b'-', out, at);
        return append_decimal(z.unsigned_abs(), out, digits);
    }
    append_decimal(z.unsigned_abs(), out, at)
}

// Puts the first `count` cells of `sheet`, as far as they are there, into `out` at the place `at`, each on a line of its own, and
// answers the next place.
fn append_cells(sheet: &[i64], count: usize, out: &mut [u8], at: usize) -> usize
    ensures text { Appended (cell_lines (take count sheet.now)) out.old at result out.new }
    ensures room { length (cell_lines (take count sheet.now)) ≤ longest_cell_line * length sheet.now }
{
    let first = &sheet[..least(count, sheet.len())];
    let mut next = at;
    for cell in first {
        let end = append_signed(*cell, out, next);
        next = append_byte(b'\n', out, end);
    }
    next
}

// The hexadecimal digit of `d`, which is below 16. By hand, since std gives the digit as an Option of a character, for every `d`.
fn hex_digit(d: u8) -> u8
    requires { d < 16 }
    ensures { result ≡ hex_digit d }
{
    if d < 10 { b'0' + d } else { b'a' + (d - 10) }
}

// Puts the first `count` of `bytes`, as far as they are there, into `out` at the place `at`, two hexadecimal digits each, and
// answers the next place.
pub fn append_hexadecimal(bytes: &[u8], count: usize, out: &mut [u8], at: usize) -> usize
    ensures { Appended (hexadecimal (take count bytes.now)) out.old at result out.new }
{
    let first = &bytes[..least(count, bytes.len())];
    let mut next = at;
    for b in first {
        let low = append_byte(hex_digit(b / 16), out, next);
        next = append_byte(hex_digit(b % 16), out, low);
    }
    next
}
