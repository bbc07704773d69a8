// Reading a message of a row of the type table into cells, by a walk through the table. A walk answers one number: the next place
// and the next cell, or a refusal.
#![tactic(auto)]

ghost use Rattle.std.specs.Prelude.{◌≡◌, cond, List, [], ◌∷◌, ℕ, ◌+◌, ◌-◌, ◌*◌, ◌/◌, ◌%◌, ◌≤◌, ◌<◌, ◌^◌, length, set, take, drop, eqb, ℤ, pos, ◌+ℤ◌};
ghost use Rattle.std.proofs.lemmas.List.Edits.{sets};
ghost use Rattle.answers.specs.Refusals.{refusal, carrying, naming, short_by};
ghost use Rattle.answers.specs.declared.reasons.Reason.TheVariants as reason;
ghost use Rattle.answers.specs.Answers.{answered, refused_by};
ghost use Rattle.bits.specs.Numbers.{to_bits, width};
ghost use Rattle.bits.specs.Bytes.{bits_of};
ghost use Rattle.bits.specs.Limits.{most_bytes, most_bits};
ghost use Rattle.types.specs.Table.{the_rows};
ghost use Rattle.meaning.specs.Messages.{is_padding, read_typed, read_typed_sheet, row_named};
ghost use Rattle.reading.specs.Rows.{Known};
ghost use Rattle.bits.specs.Fetching;
ghost use Rattle.types.specs.Columns as columns;
ghost use Rattle.types.specs.Shape.{field, told};
ghost use Rattle.types.specs.Shape.Ty.{num, seq, choice, list};
ghost use Rattle.types.specs.Table.{bias, words_from, mark_from, mark_room, first_from, first_room, count_from, count_room, spared_from, word_at, low_in, span_in, column, lowest_of, options_of, root_at, value_outside, fields_of, alts_of, type_of};
ghost use Rattle.types.specs.Ready.{Ready, TypeRow, PartRows};
ghost use Rattle.meaning.specs.Walk.{times, fields};
ghost use Rattle.meaning.specs.Walk;
ghost use Rattle.meaning.specs.Reading.{reader, read_whole, read_extension};
ghost use Rattle.walking.specs.Went.{Went};
ghost use Rattle.walking.specs.Walked.{Walked, silent, opened};
ghost use Rattle.walking.specs.Packed.{refused_from, place_room, row_room, farthest, up_to, went_by};
ghost use Rattle.reading.specs.Given.{Placed, Counted, Filled, Grouped, Onward, message_in};
ghost use Rattle.reading.specs.Taken.{taken_by, begun_by, cells, top_bits, behind_of, value_in, four_in};
ghost use Rattle.reading.specs.Judged.{judged_by};
ghost use Rattle.reading.specs.Telling.{told_went};

use answers::{Done, Failure, Reason, Refusal};
use basics::{copy_front, power};
use bits::MOST_BYTES;
use types::layout::{
    BIAS, BIAS_SIGNED, BOUNDS_FROM, BOUNDS_ROOM, CHOICE, COMPONENT, COUNT_FROM, COUNT_ROOM,
    FIRST_FROM, FIRST_ROOM, KIND_ROOM, MARK_FROM, MARK_ROOM, ROWS, SEQUENCE, SPARED_FROM,
    WORDS_FROM,
};
use types::names::DESCRIPTION;
use walking::packing::{FARTHEST, LACKING_UNIT, NUMBER_ROOM, REFUSED, ROW_UNIT, UNIT, refusal_in};

// The lowest value 0, as the table keeps it.
const ZERO: u64 = BIAS as u64;

// How many bytes stand behind a message that is walked, since bits are taken eight bytes at a time.
const BEHIND: usize = 8;

// The rows of a Description's two strings; with others `text` would not meet its contract.
const TEXT_STRING: usize = 125;

const TEXT_GB2312: usize = 126;

// A message is copied, and its cells are read, into memory apart whose size goes by the message's bytes, since to make much of it takes
// time. A message has one to two cells a byte; 520 bytes take in the longest Description.
const TINY_BYTES: usize = 16;

const TINY_CELLS: usize = 40;

const SMALL_BYTES: usize = 40;

const SMALL_CELLS: usize = 96;

const SHORT_BYTES: usize = 96;

const SHORT_CELLS: usize = 208;

const USUAL_BYTES: usize = 256;

const USUAL_CELLS: usize = 512;

const LONG_BYTES: usize = 520;

const LONG_CELLS: usize = 1024;

const MANY_CELLS: usize = 4096;

// A short Description, and the most cells that it has: 1 bit for its index, 9 for its size, at least 7 an item.
const TEXT_BYTES: usize = 64;

const TEXT_CELLS: usize = 73;

// Reads the message in `bytes`, of the type of `row`, into the cells of `sheet`, and answers how many bits and cells it has, or why nothing
// was handed over: a row of the table that is no type is refused, too. A refusal changes no cell.
pub fn read_row(row: usize, bytes: &[u8], sheet: &mut [i64]) -> Result<Done, Failure>
    ensures answer { answered result ≡ read_typed (row_named row) bytes.now (length sheet.old) }
    ensures cells { sheet.new ≡ read_typed_sheet (row_named row) bytes.now sheet.old }
{
    if ROWS <= row {
        return refused_at(Reason::UnknownType, 0);
    }
    // To make the table takes longer than to read a short Description.
    if row == DESCRIPTION {
        if bytes.len() <= TEXT_BYTES {
            return read_text(bytes, sheet);
        }
    }
    let rows = types::rows();
    if COMPONENT <= word_at(&rows, row) % KIND_ROOM {
        return refused_at(Reason::UnknownType, 0);
    }
    if MOST_BYTES < bytes.len() {
        return refused_at(Reason::TooLong, 0);
    }
    if USUAL_BYTES < bytes.len() {
        return read_long(&rows, row, bytes, sheet);
    }
    read_short(&rows, row, bytes, sheet)
}

// Reads a message of at most 256 bytes.
fn read_short(rows: &[u32], row: usize, bytes: &[u8], sheet: &mut [i64]) -> Result<Done, Failure>
    requires { Known rows.now row × (length bytes.now ≤ 256) }
    ensures answer { answered result ≡ read_typed (Some row) bytes.now (length sheet.old) }
    ensures cells { sheet.new ≡ read_typed_sheet (Some row) bytes.now sheet.old }
{
    if bytes.len() <= TINY_BYTES {
        let mut b = [0u8; TINY_BYTES + BEHIND];
        let mut made = [0i64; TINY_CELLS];
        return read_apart(rows, row, bytes, &mut b, &mut made, sheet);
    }
    if bytes.len() <= SMALL_BYTES {
        let mut b = [0u8; SMALL_BYTES + BEHIND];
        let mut made = [0i64; SMALL_CELLS];
        return read_apart(rows, row, bytes, &mut b, &mut made, sheet);
    }
    if bytes.len() <= SHORT_BYTES {
        let mut b = [0u8; SHORT_BYTES + BEHIND];
        let mut made = [0i64; SHORT_CELLS];
        return read_apart(rows, row, bytes, &mut b, &mut made, sheet);
    }
    let mut b = [0u8; USUAL_BYTES + BEHIND];
    let mut made = [0i64; USUAL_CELLS];
    read_apart(rows, row, bytes, &mut b, &mut made, sheet)
}

// Reads a message of more than 256 bytes.
fn read_long(rows: &[u32], row: usize, bytes: &[u8], sheet: &mut [i64]) -> Result<Done, Failure>
    requires { Known rows.now row × (length bytes.now ≤ most_bytes) }
    ensures answer { answered result ≡ read_typed (Some row) bytes.now (length sheet.old) }
    ensures cells { sheet.new ≡ read_typed_sheet (Some row) bytes.now sheet.old }
{
    let mut b = [0u8; MOST_BYTES + BEHIND];
    if bytes.len() <= LONG_BYTES {
        let mut made = [0i64; LONG_CELLS];
        return read_apart(rows, row, bytes, &mut b, &mut made, sheet);
    }
    let mut made = [0i64; MANY_CELLS];
    read_apart(rows, row, bytes, &mut b, &mut made, sheet)
}

// Reads the Description, row 129, in `bytes`, which are few, into `sheet`: without the table, into cells apart that hold every one.
fn read_text(bytes: &[u8], sheet: &mut [i64]) -> Result<Done, Failure>
    requires { length bytes.now ≤ 64 }
    ensures answer { answered result ≡ read_typed (Some 129) bytes.now (length sheet.old) }
    ensures cells { sheet.new ≡ read_typed_sheet (Some 129) bytes.now sheet.old }
{
    let mut b = [0u8; TEXT_BYTES + BEHIND];
    copy_front(bytes, &mut b);
    let total = bytes.len() * 8;
    let mut made = [0i64; TEXT_CELLS];
    let r = text(&b, total, &mut made);
    let done = judged(r, &b, total, sheet.len())?;
    copy_front(&made[..done.count], sheet);
    Ok(done)
}

// Reads a Description from the first of the `total` bits of `b` on into the first cells of `sheet`: its index, then a string of characters
// or of octets.
fn text(b: &[u8], total: usize, sheet: &mut [i64]) -> u64
    requires { Placed b.now total 0 × Counted sheet.old 0 }
    ensures { Walked silent total (Walk.walk (type_of the_rows 129) reader (message_in b.now total) 0) sheet.old 0 (went_by result) sheet.new }
{
    let n = taken(b, total, 0, 1, 1);
    if REFUSED <= n {
        return told(Reason::AlternativeOutside, DESCRIPTION, n);
    }
    let c = put_value(ZERO, n, sheet, 0);
    if n == 0 {
        return string(TEXT_STRING, 1, 511, 127, b, total, sheet, c);
    }
    string(TEXT_GB2312, 2, 510, 255, b, total, sheet, c)
}

// Reads a string of a Description, the type of row `text`, from the second of the `total` bits of `b` on, into the cells of `sheet` from `cell` on:
// its size, `least` to `least` plus `span`, which is nine bits wide, then its items, 0 to `top`, which every code of their bits is.
fn string(
    text: usize,
    least: u64,
    span: u64,
    top: u64,
    b: &[u8],
    total: usize,
    sheet: &mut [i64],
    cell: usize,
) -> u64
    requires { (least < 2 ^ 31) × (width span ≡ 9) × (top < 2 ^ 32) × Placed b.now total 1 × Counted sheet.old cell × (0 < top) × (text < row_room) × (top + 1 ≡ 2 ^ width top) }
    ensures { (item : ℕ) → Walked silent total (Walk.walk (list text least span (num (told reason.NumberOutside item (field (pos 0) top)))) reader (message_in b.now total) 1) sheet.old cell (went_by result) sheet.new }
{
    let n = taken(b, total, 1, 9, span);
    if REFUSED <= n {
        return told(Reason::SizeOutside, text, n);
    }
    let c = put_value(least + ZERO, n, sheet, cell);
    run(ZERO, top, (least + n) as usize, b, total, 10, sheet, c)
}

// Reads the message in `bytes`, of the type of `row`: it is copied to `b`, a walk fills the cells `made`, and they are copied to `sheet` once
// the message is known to be right and to have room. Where `made` has too few cells, a second walk fills the front of `sheet` itself.
fn read_apart(
    rows: &[u32],
    row: usize,
    bytes: &[u8],
    b: &mut [u8],
    made: &mut [i64],
    sheet: &mut [i64],
) -> Result<Done, Failure>
    requires { Known rows.now row × (length bytes.now ≤ most_bytes) × (length bytes.now + 8 ≤ length b.old) × (length made.old ≤ farthest) }
    ensures answer { answered result ≡ read_typed (Some row) bytes.now (length sheet.old) }
    ensures cells { sheet.new ≡ read_typed_sheet (Some row) bytes.now sheet.old }
{
    copy_front(bytes, b);
    let total = bytes.len() * 8;
    let r = walk(rows, row, b, total, 0, made, 0);
    let done = judged(r, b, total, sheet.len())?;
    if made.len() < done.count {
        walk(rows, row, b, total, 0, &mut sheet[..done.count], 0);
        return Ok(done);
    }
    copy_front(&made[..done.count], sheet);
    Ok(done)
}

// What is answered where a walk over the `total` bits of `b` answered `r` and the sheet has `room` cells: the walk's refusal, then 6 where
// what is left is no padding, then 8, else the bits and the cells of the value.
fn judged(r: u64, b: &[u8], total: usize, room: usize) -> Result<Done, Failure>
    requires { r < refused_from → Placed b.now total (r % place_room) }
    ensures { answered result ≡ judged_by (went_by r) (take total (bits_of b.now)) room }
{
    let at = (r % UNIT) as usize;
    if REFUSED <= r {
        return Err(Failure::Refused(refusal_in(r)));
    }
    if !padding(b, total, at) {
        return refused_at(Reason::SpareBits, at);
    }
    let next = (r / UNIT) as usize;
    if room < next {
        return Err(Failure::NoRoom(next));
    }
    Ok(Done {
        bits: at,
        count: next,
    })
}

// The answer that is a refusal for this `reason` at `place`.
fn refused_at(reason: Reason, place: usize) -> Result<Done, Failure>
    ensures { answered result ≡ refused_by (refusal reason place) }
{
    Err(Failure::Refused(Refusal::new(reason, place)))
}

// Whether fewer than eight of the `total` bits of `b` are left from `at` on, and all of them are 0.
fn padding(b: &[u8], total: usize, at: usize) -> bool
    requires { Placed b.now total at }
    ensures { result ≡ is_padding (drop at (take total (bits_of b.now))) }
{
    let left = total - at;
    if 8 <= left {
        return false;
    }
    if left == 0 {
        return true;
    }
    code(b, at, left) == 0
}

// The byte `x` as a number of 64 bits.
fn wide(x: u8) -> u64
    ensures { (result ≡ x) × (result < 256) }
{
    x as u64
}

// The two bytes of `b` from byte `i` on as one number. The low byte stands first, and below the low pair and the low half: of that sum of
// eight bytes the compiler makes one load.
fn pair(b: &[u8], i: usize) -> u64
    requires { i + 2 ≤ length b.now }
    ensures { (result ≡ Fetching.code (bits_of b.now) (8 * i) 16) × (result < 2 ^ 16) }
{
    wide(b[i + 1]) + wide(b[i]) * 256
}

// The four bytes of `b` from byte `i` on as one number.
fn half(b: &[u8], i: usize) -> u64
    requires { i + 4 ≤ length b.now }
    ensures { (result ≡ Fetching.code (bits_of b.now) (8 * i) 32) × (result < 2 ^ 32) }
{
    pair(b, i + 2) + pair(b, i) * 65536
}

// The eight bytes of `b` from byte `i` on as one number.
fn window(b: &[u8], i: usize) -> u64
    requires { i + 8 ≤ length b.now }
    ensures { result ≡ Fetching.code (bits_of b.now) (8 * i) 64 }
{
    half(b, i + 4) + half(b, i) * 4294967296
}

// The bits of `b` from `at` on, at the top of a number of 64 bits: at least 57 of them.
fn head(b: &[u8], at: usize) -> u64
    requires { at + 64 ≤ 8 * length b.now }
    ensures { (w : ℕ) → w ≤ 57 → result / 2 ^ (64 - w) ≡ Fetching.code (bits_of b.now) at w }
{
    window(b, at / 8) << (at % 8)
}

// The number in the `w` bits of `b` from `at` on.
fn code(b: &[u8], at: usize, w: usize) -> u64
    requires { (at + 64 ≤ 8 * length b.now) × (0 < w) × (w ≤ 57) }
    ensures { result ≡ Fetching.code (bits_of b.now) at w }
{
    head(b, at) >> (64 - w)
}

// A walk that went on: the next place `at` and the next cell `next`.
fn on(at: usize, next: usize) -> u64
    requires { (at < 2 ^ 32) × (next ≤ farthest) }
    ensures { went_by result ≡ Went.On 0 at next }
{
    next as u64 * UNIT + at as u64
}

// A walk that stopped: all that a refusal carries, in one number.
fn stopped(reason: Reason, row: usize, lacking: usize, place: usize) -> u64
    requires { (row < row_room) × (lacking < 64) × (place < 2 ^ 32) }
    ensures { (went_by result ≡ Went.No (carrying reason row lacking place)) × (refused_from ≤ result) }
{
    let below = row as u64 * ROW_UNIT + reason.number() * UNIT + place as u64;
    REFUSED + lacking as u64 * LACKING_UNIT + below
}

// One that stopped at a field of which `lacking` bits are not there.
fn short(lacking: usize, place: usize) -> u64
    requires { (lacking < 64) × (place < 2 ^ 32) }
    ensures { (went_by result ≡ Went.No (short_by lacking place)) × (refused_from ≤ result) }
{
    stopped(Reason::Short, 0, lacking, place)
}

// One that stopped with the reason and the place of a refusal, and nothing besides.
fn no(reason: Reason, place: usize) -> u64
    requires { place < 2 ^ 32 }
    ensures { went_by result ≡ Went.No (refusal reason place) }
{
    stopped(reason, 0, 0, place)
}

// One that stopped with a refusal that names the row `row`.
fn named(reason: Reason, row: usize, place: usize) -> u64
    requires { (row < row_room) × (place < 2 ^ 32) }
    ensures { (went_by result ≡ Went.No (naming reason row place)) × (refused_from ≤ result) }
{
    stopped(reason, row, 0, place)
}

// The code of the field of `w` bits of `b` at `at` whose codes go up to `span`, of the `total` bits of the message; or a refusal, by 4 where
// the code is outside: whose field it is, is asked only then. That the bits are there is asked before they are taken: the other way round the
// compiler makes slower code.
fn taken(b: &[u8], total: usize, at: usize, w: usize, span: u64) -> u64
    requires { Placed b.now total at × (w ≡ width span) × (span < 2 ^ 32) × (0 < span) }
    ensures { (lowest : ℤ) → read_whole (field lowest span) (message_in b.now total) at ≡ taken_by lowest span at result }
{
    if total < at + w {
        return short(at + w - total, at);
    }
    let found = code(b, at, w);
    if span < found {
        return no(Reason::Outside, at);
    }
    found
}

// The refusal `r` of a field of the type in `row`: where a code is outside, which `taken` tells by 4, it is told by `reason` and that row.
fn told(reason: Reason, row: usize, r: u64) -> u64
    requires { (row < row_room) × (refused_from ≤ r) }
    ensures { (went_by result ≡ told_went reason row (went_by r)) × (refused_from ≤ result) }
{
    if r / UNIT % NUMBER_ROOM != Reason::Outside.number() {
        return r;
    }
    named(reason, row, (r % UNIT) as usize)
}

// A walk that stopped at `place`, since a code of the type in `row`, which is one field, is outside: told as an index where the row is an
// enumeration, else as a number.
fn outside_of(rows: &[u32], row: usize, place: usize) -> u64
    requires { (words_from + row < length rows.now) × (row < row_room) × (place < 2 ^ 32) }
    ensures { (went_by result ≡ Went.No (naming (value_outside (column rows.now row columns.kind)) row place)) × (refused_from ≤ result) }
{
    named(
        types::value_outside(word_at(rows, row) % KIND_ROOM),
        row,
        place,
    )
}

// The refusal `r` of a value of the type in `row`, which is one field: `told` as an index where the row is an enumeration, else as a number.
fn told_of(rows: &[u32], row: usize, r: u64) -> u64
    requires { (words_from + row < length rows.now) × (row < row_room) × (refused_from ≤ r) }
    ensures { (went_by result ≡ told_went (value_outside (column rows.now row columns.kind)) row (went_by r)) × (refused_from ≤ result) }
{
    told(types::value_outside(word_at(rows, row) % KIND_ROOM), row, r)
}

// The size of a list, less its least, in the `w` bits of `b` at `at`, as `taken` takes it; 0 where all sizes are the same, so that `span` is 0
// and no bit is coded.
fn size_taken(b: &[u8], total: usize, at: usize, w: usize, span: u64) -> u64
    requires { Placed b.now total at × (w ≡ width span) × (span < 2 ^ 32) }
    ensures { (lowest : ℤ) → read_whole (field lowest span) (message_in b.now total) at ≡ taken_by lowest span at result }
{
    if span == 0 {
        return 0;
    }
    taken(b, total, at, w, span)
}

// The place behind the extension bit of `b` at `at`, where `mark` says that the row has one, which has to be 0; or a refusal.
fn begin(mark: usize, b: &[u8], total: usize, at: usize) -> u64
    requires { Placed b.now total at }
    ensures { opened mark (read_extension (message_in b.now total)) at ≡ begun_by result }
{
    if mark == 0 {
        return at as u64;
    }
    if total <= at {
        return short(1, at);
    }
    if code(b, at, 1) != 0 {
        return no(Reason::Extended, at);
    }
    at as u64 + 1
}

// The value with the code `n`: `n` above the lowest value, which the table keeps as `low`, its distance from the lowest 32-bit number.
fn value_of(low: u64, n: u64) -> i64
    requires { (low < 2 ^ 32) × (n < 2 ^ 32) }
    ensures { result ≡ lowest_of low +ℤ pos n }
{
    (low + n) as i64 - BIAS_SIGNED
}

// Stores `value` in the cell `cell` where `sheet` has it, and gives the place of the next cell in any case.
fn put(sheet: &mut [i64], cell: usize, value: i64) -> usize
    requires { Counted sheet.old cell }
    ensures { (sheet.new ≡ set sheet.old cell value) × (result ≡ up_to (cell + 1)) }
{
    if cell < sheet.len() {
        sheet[cell] = value;
        return cell + 1;
    }
    if cell < FARTHEST { cell + 1 } else { FARTHEST }
}

// Stores the value with the code `n` above `low` in the cell `cell` of `sheet`, as `put` does.
fn put_value(low: u64, n: u64, sheet: &mut [i64], cell: usize) -> usize
    requires { (low < 2 ^ 32) × (n < 2 ^ 32) × Counted sheet.old cell }
    ensures { (sheet.new ≡ set sheet.old cell (lowest_of low +ℤ pos n)) × (result ≡ up_to (cell + 1)) }
{
    let value = value_of(low, n);
    put(sheet, cell, value)
}

// Reads a value of the type in `row`, which is one field whose bounds stand in `word`, from `b` at `at` into the cell `cell` of `sheet`. It
// makes the tests of `taken` itself, so that it is small enough for the compiler to put it where it is called.
fn number(
    rows: &[u32],
    row: usize,
    word: usize,
    b: &[u8],
    total: usize,
    at: usize,
    sheet: &mut [i64],
    cell: usize,
) -> u64
    requires { (words_from + row < length rows.now) × (0 < span_in rows.now word) × Placed b.now total at × Counted sheet.old cell × (row < row_room) }
    ensures { Walked silent total (read_whole (told (value_outside (column rows.now row columns.kind)) row (field (lowest_of (low_in rows.now word)) (span_in rows.now word))) (message_in b.now total) at) sheet.old cell (went_by result) sheet.new }
{
    let span = span_in(rows, word) as u64;
    let w = bits::width(span) as usize;
    let end = at + w;
    if total < end {
        return short(end - total, at);
    }
    let n = code(b, at, w);
    if span < n {
        return outside_of(rows, row, at);
    }
    on(end, put_value(low_in(rows, word) as u64, n, sheet, cell))
}

// The first of the presence bits at the top of a number.
const FIRST_BIT: u64 = 9223372036854775808;

// A number that is at least `FIRST_BIT` where the component with this `word` is there: that with its presence bit at the top, `flags`, or one
// where it has none.
fn present(word: usize, flags: u64) -> u64
    ensures { result ≡ cond (eqb (word / mark_from % mark_room) 0) (2 ^ 63) flags }
{
    if word / MARK_FROM % MARK_ROOM == 0 {
        return FIRST_BIT;
    }
    flags
}

// The presence bits behind that of the component with this `word`, at the top, of those in `flags`.
fn behind(word: usize, flags: u64) -> u64
    ensures { result ≡ behind_of (word / mark_from % mark_room) flags }
{
    if word / MARK_FROM % MARK_ROOM == 0 {
        return flags;
    }
    flags << 1
}

// Stores the `n` bits at the top of `flags` as cells of `sheet` from `cell` on, and gives the place of the next cell.
fn spread(mut flags: u64, n: usize, sheet: &mut [i64], mut cell: usize) -> usize
    requires { Counted sheet.old cell × (n < 64) }
    ensures { Filled (cells (top_bits n flags)) sheet.old cell result sheet.new }
{
    for _ in 0..n {
        cell = put_value(ZERO, flags >> 63, sheet, cell);
        flags = flags << 1;
    }
    cell
}

// How many groups of four of `n` numbers can be stored at once: all, where every code of their `w` bits is in its range, which goes up to
// `span`, and the bits up to `total` and the cells up to `room` are there; else none.
fn groups(span: u64, w: usize, n: usize, total: usize, at: usize, room: usize, cell: usize) -> usize
    requires { (span < 2 ^ 32) × (n < 2 ^ 34) × (at ≤ total) × (at < 2 ^ 32) × (cell < 2 ^ 32) × (w < 64) }
    ensures { Grouped span w n total at room cell result }
{
    if w <= 8 {
        if span + 1 == power(w) {
            let k = n / 4;
            if at + k * (4 * w) <= total {
                if cell + 4 * k <= room {
                    return k;
                }
            }
        }
    }
    0
}

// The value of the `w` bits of `x` that have `d` bits behind them, above `low`.
fn value_in(x: u64, w: usize, low: u64, d: usize) -> i64
    requires { (w ≤ 8) × (low < 2 ^ 32) × (d < 64) }
    ensures { result ≡ value_in x w low d }
{
    value_of(low, (x >> d) % power(w))
}

// Stores the four numbers of `w` bits in `x`, each above `low`, in the cells of `sheet` from `cell` on.
fn four(x: u64, w: usize, low: u64, sheet: &mut [i64], cell: usize)
    requires { (w ≤ 8) × (low < 2 ^ 32) × (cell + 4 ≤ length sheet.old) }
    ensures { sheet.new ≡ four_in x w low sheet.old cell }
{
    sheet[cell] = value_in(x, w, low, 3 * w);
    sheet[cell + 1] = value_in(x, w, low, 2 * w);
    sheet[cell + 2] = value_in(x, w, low, w);
    sheet[cell + 3] = value_in(x, w, low, 0);
}

// Reads `n` groups of four numbers of `w` bits, each above `low`, from `b` at `at` into the cells of `sheet` from `cell` on.
fn fours(low: u64, w: usize, n: usize, b: &[u8], at: usize, sheet: &mut [i64], cell: usize)
    requires { (low < 2 ^ 32) × (0 < w) × (0 < n → w ≤ 8) × (at + n * (4 * w) ≤ most_bits) × (at + n * (4 * w) + 64 ≤ 8 * length b.now) × (0 < n → cell + 4 * n ≤ length sheet.old) × (length sheet.old ≤ farthest) }
    ensures { (total span m : ℕ) → Placed b.now total at → w ≡ width span → (0 < n → span + 1 ≡ 2 ^ w) → at + n * (4 * w) ≤ total →
        Onward total (times m (Walk.walk (num (field (lowest_of low) span)) reader) (message_in b.now total) (at + n * (4 * w))) sheet.new (cell + 4 * n)
        (times (4 * n + m) (Walk.walk (num (field (lowest_of low) span)) reader) (message_in b.now total) at) sheet.old cell }
{
    for i in 0..n {
        let x = code(b, at + i * (4 * w), 4 * w);
        four(x, w, low, sheet, cell + 4 * i);
    }
}

// Reads `n` whole numbers of the range `low` to `low` plus `span`, one by one.
fn singles(
    low: u64,
    span: u64,
    n: usize,
    b: &[u8],
    total: usize,
    mut at: usize,
    sheet: &mut [i64],
    mut cell: usize,
) -> u64
    requires { Placed b.now total at × Counted sheet.old cell × (low < 2 ^ 32) × (span < 2 ^ 32) × (0 < span) }
    ensures { Walked silent total (times n (Walk.walk (num (field (lowest_of low) span)) reader) (message_in b.now total) at) sheet.old cell (went_by result) sheet.new }
{
    let w = bits::width(span) as usize;
    for _ in 0..n {
        let x = taken(b, total, at, w, span);
        if REFUSED <= x {
            return x;
        }
        cell = put_value(low, x, sheet, cell);
        at += w;
    }
    on(at, cell)
}

// Reads `n` whole numbers of the range `low` to `low` plus `span`, one behind the other: in groups of four as far as that is possible.
fn run(
    low: u64,
    span: u64,
    n: usize,
    b: &[u8],
    total: usize,
    at: usize,
    sheet: &mut [i64],
    cell: usize,
) -> u64
    requires { Placed b.now total at × Counted sheet.old cell × (low < 2 ^ 32) × (span < 2 ^ 32) × (0 < span) × (n < 2 ^ 34) }
    ensures { Walked silent total (times n (Walk.walk (num (field (lowest_of low) span)) reader) (message_in b.now total) at) sheet.old cell (went_by result) sheet.new }
{
    let w = bits::width(span) as usize;
    let k = groups(span, w, n, total, at, sheet.len(), cell);
    fours(low, w, k, b, at, sheet, cell);
    singles(
        low,
        span,
        n - 4 * k,
        b,
        total,
        at + k * (4 * w),
        sheet,
        cell + 4 * k,
    )
}

// Stores the size of a list, the code `n` above `low`, where `span` says that it is coded, and gives the place of the next cell.
fn sized(span: u64, low: u64, n: u64, sheet: &mut [i64], cell: usize) -> usize
    requires { (low < 2 ^ 32) × (n < 2 ^ 32) × Counted sheet.old cell }
    ensures { Filled (cond (eqb span 0) [] ((lowest_of low +ℤ pos n) ∷ [])) sheet.old cell result sheet.new }
{
    if span == 0 {
        return cell;
    }
    put_value(low, n, sheet, cell)
}

// The walk. Table and message are handed on apart, as table and cells are in writing, where a struct that lends both took 6 in a hundred
// longer.

// Reads a value of the type of `row` of the table `rows`, from the `total` bits of `b` at `at` into `sheet` from `cell` on.
#[cycle(alternative_components_items_sequence_series_walk)]
fn walk(
    rows: &[u32],
    row: usize,
    b: &[u8],
    total: usize,
    at: usize,
    sheet: &mut [i64],
    cell: usize,
) -> u64
    requires { Ready rows.now × TypeRow rows.now row × Placed b.now total at × Counted sheet.old cell }
    ensures { Walked silent total (Walk.walk (type_of (root_at rows.now) row) reader (message_in b.now total) at) sheet.old cell (went_by result) sheet.new }
{
    let word = word_at(rows, row);
    let p = begin(word / MARK_FROM % MARK_ROOM, b, total, at);
    if REFUSED <= p {
        return p;
    }
    let q = p as usize;
    let kind = word % KIND_ROOM;
    if kind == SEQUENCE {
        return sequence(rows, word, b, total, q, sheet, cell);
    }
    if kind < SEQUENCE {
        return number(rows, row, word, b, total, q, sheet, cell);
    }
    if kind == CHOICE {
        return alternative(rows, row, word, b, total, q, sheet, cell);
    }
    series(rows, row, word, b, total, q, sheet, cell)
}

// Reads the sequence whose row has this `word`: all presence bits at once, then the components that are there.
#[cycle(alternative_components_items_sequence_series_walk)]
fn sequence(
    rows: &[u32],
    word: usize,
    b: &[u8],
    total: usize,
    at: usize,
    sheet: &mut [i64],
    cell: usize,
) -> u64
    requires { Ready rows.now × PartRows rows.now (word / first_from % first_room) (word / count_from % count_room)
        × (word / spared_from ≡ options_of (root_at rows.now) (word / first_from % first_room) (word / count_from % count_room)) × (word < 2 ^ 32) × Placed b.now total at × Counted sheet.old cell }
    ensures { Walked silent total (Walk.walk (seq (fields_of (root_at rows.now) (type_of (root_at rows.now)) (word / first_from % first_room) (word / count_from % count_room))) reader (message_in b.now total) at) sheet.old cell (went_by result) sheet.new }
{
    let options = word / SPARED_FROM;
    if total < at + options {
        return short(1, total);
    }
    let flags = head(b, at);
    let c = spread(flags, options, sheet, cell);
    components(
        rows,
        word / FIRST_FROM % FIRST_ROOM,
        word / COUNT_FROM % COUNT_ROOM,
        flags,
        b,
        total,
        at + options,
        sheet,
        c,
    )
}

// Reads the `count` components from row `first`: those that are OPTIONAL are there where their bit is 1, of the bits at the top of `flags`.
// A component whose word has its type's bounds needs no walk.
#[cycle(alternative_components_items_sequence_series_walk)]
fn components(
    rows: &[u32],
    first: usize,
    count: usize,
    mut flags: u64,
    b: &[u8],
    total: usize,
    mut at: usize,
    sheet: &mut [i64],
    mut cell: usize,
) -> u64
    requires { Ready rows.now × PartRows rows.now first count × (options_of (root_at rows.now) first count < 64) × Placed b.now total at × Counted sheet.old cell }
    ensures { Walked silent total (fields (fields_of (root_at rows.now) (type_of (root_at rows.now)) first count) (top_bits (options_of (root_at rows.now) first count) flags) reader (message_in b.now total) at) sheet.old cell (went_by result) sheet.new }
{
    for row in first..first + count {
        let part = word_at(rows, row);
        let here = present(part, flags);
        flags = behind(part, flags);
        if FIRST_BIT <= here {
            if SPARED_FROM <= part {
                let span = span_in(rows, part) as u64;
                let w = bits::width(span) as usize;
                let n = taken(b, total, at, w, span);
                if REFUSED <= n {
                    return told_of(rows, part / FIRST_FROM % FIRST_ROOM, n);
                }
                cell = put_value(low_in(rows, part) as u64, n, sheet, cell);
                at += w;
            } else {
                let r = walk(
                    rows,
                    part / FIRST_FROM % FIRST_ROOM,
                    b,
                    total,
                    at,
                    sheet,
                    cell,
                );
                if REFUSED <= r {
                    return r;
                }
                at = (r % UNIT) as usize;
                cell = (r / UNIT) as usize;
            }
        }
    }
    on(at, cell)
}

// Reads the choice in `row`, which has this `word`: its index, then the alternative, which needs no walk where its word has its type's bounds.
#[cycle(alternative_components_items_sequence_series_walk)]
fn alternative(
    rows: &[u32],
    row: usize,
    word: usize,
    b: &[u8],
    total: usize,
    at: usize,
    sheet: &mut [i64],
    cell: usize,
) -> u64
    requires { Ready rows.now × PartRows rows.now (word / first_from % first_room) (span_in rows.now word + 1) × (0 < span_in rows.now word) × Placed b.now total at × Counted sheet.old cell × (row < row_room) }
    ensures { Walked silent total (Walk.walk (choice row (alts_of (root_at rows.now) (type_of (root_at rows.now)) (word / first_from % first_room) (span_in rows.now word))) reader (message_in b.now total) at) sheet.old cell (went_by result) sheet.new }
{
    let span = span_in(rows, word) as u64;
    let w = bits::width(span) as usize;
    let n = taken(b, total, at, w, span);
    if REFUSED <= n {
        return told(Reason::AlternativeOutside, row, n);
    }
    let c = put_value(ZERO, n, sheet, cell);
    let part = word_at(rows, word / FIRST_FROM % FIRST_ROOM + n as usize);
    if SPARED_FROM <= part {
        return number(
            rows,
            part / FIRST_FROM % FIRST_ROOM,
            part,
            b,
            total,
            at + w,
            sheet,
            c,
        );
    }
    walk(
        rows,
        part / FIRST_FROM % FIRST_ROOM,
        b,
        total,
        at + w,
        sheet,
        c,
    )
}

// Reads the list in `row`, which has this `word`: its size, which is coded where sizes differ, then its items.
#[cycle(alternative_components_items_sequence_series_walk)]
fn series(
    rows: &[u32],
    row: usize,
    word: usize,
    b: &[u8],
    total: usize,
    at: usize,
    sheet: &mut [i64],
    cell: usize,
) -> u64
    requires { Ready rows.now × TypeRow rows.now (word / first_from % first_room) × (bias ≤ low_in rows.now word) × Placed b.now total at × Counted sheet.old cell × (row < row_room) }
    ensures { Walked silent total (Walk.walk (list row (low_in rows.now word - bias) (span_in rows.now word) (type_of (root_at rows.now) (word / first_from % first_room))) reader (message_in b.now total) at) sheet.old cell (went_by result) sheet.new }
{
    let low = low_in(rows, word) as u64;
    let span = span_in(rows, word) as u64;
    let w = bits::width(span) as usize;
    let n = size_taken(b, total, at, w, span);
    if REFUSED <= n {
        return told(Reason::SizeOutside, row, n);
    }
    let c = sized(span, low, n, sheet, cell);
    items(
        rows,
        word / FIRST_FROM % FIRST_ROOM,
        (low + n) as usize - BIAS,
        b,
        total,
        at + w,
        sheet,
        c,
    )
}

// Reads `n` items of the type of row `t`.
#[cycle(alternative_components_items_sequence_series_walk)]
fn items(
    rows: &[u32],
    t: usize,
    n: usize,
    b: &[u8],
    total: usize,
    at: usize,
    sheet: &mut [i64],
    mut cell: usize,
) -> u64
    requires { Ready rows.now × TypeRow rows.now t × (n < 2 ^ 34) × Placed b.now total at × Counted sheet.old cell }
    ensures { Walked silent total (times n (Walk.walk (type_of (root_at rows.now) t) reader) (message_in b.now total) at) sheet.old cell (went_by result) sheet.new }
{
    let item = word_at(rows, t);
    if item % BOUNDS_FROM < SEQUENCE {
        let r = run(
            low_in(rows, item) as u64,
            span_in(rows, item) as u64,
            n,
            b,
            total,
            at,
            sheet,
            cell,
        );
        if REFUSED <= r {
            return told_of(rows, t, r);
        }
        return r;
    }
    let mut q = at;
    for _ in 0..n {
        let r = walk(rows, t, b, total, q, sheet, cell);
        if REFUSED <= r {
            return r;
        }
        q = (r % UNIT) as usize;
        cell = (r / UNIT) as usize;
    }
    on(q, cell)
}

// The word of `row` of the table `rows`. These three stand here too, and in no crate for both walks: a function that other crates can call asks
// nothing of its caller, and to ask nothing would take a comparison more at each step of a walk.
fn word_at(rows: &[u32], row: usize) -> usize
    requires { words_from + row < length rows.now }
    ensures { (result ≡ word_at rows.now row) × (result < 2 ^ 32) }
{
    rows[WORDS_FROM + row] as usize
}

// The lowest value that stands in `word`, as its distance from the lowest 32-bit number.
fn low_in(rows: &[u32], word: usize) -> usize
    requires { words_from ≤ length rows.now }
    ensures { (result ≡ low_in rows.now word) × (result < 2 ^ 32) }
{
    rows[2 * (word / BOUNDS_FROM % BOUNDS_ROOM)] as usize
}

// The highest value minus the lowest that stands in `word`.
fn span_in(rows: &[u32], word: usize) -> usize
    requires { words_from ≤ length rows.now }
    ensures { (result ≡ span_in rows.now word) × (result < 2 ^ 32) }
{
    rows[2 * (word / BOUNDS_FROM % BOUNDS_ROOM) + 1] as usize
}
