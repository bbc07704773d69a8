// Writing a value of a row's type from its cells, by a walk through the type table: the message's bits are put into bytes of its own, and
// those are handed over once they are known to be right and to have room.
#![tactic(auto)]

ghost use Rattle.std.specs.Prelude.{◌≡◌, ℕ, ◌+◌, ◌-◌, ◌*◌, ◌/◌, ◌%◌, ◌≤◌, ◌<◌, ◌^◌, ℤ, pos, ◌-ℤ◌, length, get_or, take};
ghost use Rattle.basics.specs.Lists.{cell_at};
ghost use Rattle.answers.specs.Refusals.{refusal, no_value};
ghost use Rattle.bits.specs.Numbers.{to_bits, width};
ghost use Rattle.types.specs.Shape.{field};
ghost use Rattle.types.specs.Shape.Ty.{num, seq, choice, list};
ghost use Rattle.types.specs.Table.{bias, words_from, mark_from, mark_room, first_from, first_room, count_from, count_room, spared_from, word_at, low_in, span_in, lowest_of, options_of, root_at, fields_of, alts_of, type_of};
ghost use Rattle.types.specs.Ready.{Ready, TypeRow, PartRows};
ghost use Rattle.meaning.specs.Walk.{bits, times, fields};
ghost use Rattle.meaning.specs.Writing.{write_whole, writer, write};
ghost use Rattle.walking.specs.Went.{Went};
ghost use Rattle.walking.specs.Packed.{refused_from, farthest, up_to, went_by};
ghost use Rattle.walking.specs.Walked.{flags_from};
ghost use Rattle.answers.specs.Answers.{answered, refused_by};
ghost use Rattle.types.specs.Rows.{row_count, rows as rows_of};
ghost use Rattle.types.specs.Table.{numbers, the_rows};
ghost use Rattle.meaning.specs.Values.{Value};
ghost use Rattle.meaning.specs.Steps.{Got};
ghost use Rattle.meaning.specs.Messages.{row_named, write_typed, write_typed_bytes};
ghost use Rattle.writing.specs.Entry.{Made, Handed, judged_by};
ghost use Rattle.writing.specs.Target.{target, Clean, with_five, Stored, begun_by, Stands, Wrote};
ghost use Rattle.writing.specs.Cells.{height_in, is_present, Gathered, Taken};

use answers::{Done, Failure, Reason, Refusal};
use basics::{copy_front, least};
use bits::{MOST_BITS, MOST_BYTES};
use types::column;
use types::layout::{
    BIAS, BIAS_SIGNED, BOUNDS_FROM, BOUNDS_ROOM, CHOICE, COMPONENT, COUNT_FROM, COUNT_ROOM,
    FIRST_FROM, FIRST_ROOM, KIND, KIND_ROOM, MARK_FROM, MARK_ROOM, ROWS, SEQUENCE, SPARED_FROM,
    WORDS_FROM,
};
use types::names::DESCRIPTION;
use walking::packing::{FARTHEST, NEXT_ROOM, REFUSED, UNIT, refusal_in};
use walking::past;

// A store takes five bytes, so that four spare ones stand behind those of a message.
const SPARE: usize = 4;

// The bytes in which a message is made, with the spare ones.
const PADDED: usize = MOST_BYTES + SPARE;

// So many cells a short sheet has at most, and so many bytes its message mostly: to clear many bytes takes longer than to write a few.
const SHORT_CELLS: usize = 64;

const SHORT: usize = 256 + SPARE;

const SHORT_BITS: u64 = 2048;

// The bytes in which a Description of a short sheet is made, with the spare ones: 1 bit for its index, 9 for its size, at most 8 an item.
const TEXT: usize = 64 + SPARE;

// A sheet has fewer cells than this, so that the place of a cell has room in an answer.
const CELLS_ROOM: usize = 4294967296;

// Writes the value whose cells are all of `sheet`, of the type of `row`, as a message into `bytes`, and answers how many bits and bytes it
// has, or why nothing was handed over. A refusal changes no byte. A number that is no row of a type is refused.
pub fn write_row(row: usize, sheet: &[i64], bytes: &mut [u8]) -> Result<Done, Failure>
    ensures answer { answered result ≡ write_typed (row_named row) sheet.now (length bytes.old) }
    ensures message { bytes.new ≡ write_typed_bytes (row_named row) sheet.now bytes.old }
{
    if ROWS <= row {
        return refused(Reason::UnknownType, 0);
    }
    // To make the table takes longer than to write a short Description.
    if row == DESCRIPTION {
        if sheet.len() <= SHORT_CELLS {
            return write_text(sheet, bytes);
        }
    }
    let rows = types::rows();
    if COMPONENT <= column(&rows, row, KIND) {
        return refused(Reason::UnknownType, 0);
    }
    if CELLS_ROOM <= sheet.len() {
        return Err(Failure::Refused(long(&rows, row, sheet)));
    }
    write_type(&rows, row, sheet, bytes)
}

// Writes the value in `sheet`, of the type of `row` of the table `rows`, into `bytes`: the message is made apart, of a short sheet in few
// bytes, and handed over once it is known to be right and to have room.
fn write_type(rows: &[u32], row: usize, sheet: &[i64], bytes: &mut [u8]) -> Result<Done, Failure>
    requires { (rows.now ≡ numbers rows_of) × TypeRow rows.now row × (length sheet.now < 2 ^ 32) }
    ensures { Handed (write (type_of the_rows row) sheet.now 0) (length sheet.now) bytes.old (answered result) bytes.new }
{
    if sheet.len() <= SHORT_CELLS {
        let mut few = [0u8; SHORT];
        let r = walk(rows, row, sheet, 0, &mut few, 0);
        // A refusal has its number there.
        if r / UNIT % NEXT_ROOM <= SHORT_BITS {
            return hand_over(r, sheet.len(), &few, bytes);
        }
    }
    let mut made = [0u8; PADDED];
    let r = walk(rows, row, sheet, 0, &mut made, 0);
    hand_over(r, sheet.len(), &made, bytes)
}

// Writes the Description, row 129, in `sheet`, which is short, into `bytes`: without the table.
fn write_text(sheet: &[i64], bytes: &mut [u8]) -> Result<Done, Failure>
    requires { length sheet.now ≤ 64 }
    ensures { Handed (write (type_of the_rows 129) sheet.now 0) (length sheet.now) bytes.old (answered result) bytes.new }
{
    let mut few = [0u8; TEXT];
    let r = text(sheet, &mut few);
    hand_over(r, sheet.len(), &few, bytes)
}

// Writes a Description from the first of `cells` on to the front of `out`: its index, then a string of characters or of octets.
fn text(cells: &[i64], out: &mut [u8]) -> u64
    requires { Stands cells.now 0 out.old 0 }
    ensures { Wrote cells.now (write (type_of the_rows 129) cells.now 0) out.old 0 result out.new }
{
    let n = taken(cells, 0, BIAS, 1);
    if REFUSED <= n {
        return n;
    }
    let c = put(out, 0, 1, n);
    if n == 0 {
        return string(1, 511, 127, cells, out, c);
    }
    string(2, 510, 255, cells, out, c)
}

// Writes a string of a Description, from the second of `cells` on, into `out` at `at`: its size, `least` to `least` plus `span`, which is
// nine bits wide, then its items, 0 to `top`.
fn string(least: usize, span: usize, top: usize, cells: &[i64], out: &mut [u8], at: usize) -> u64
    requires { (least < 2 ^ 31) × (width span ≡ 9) × (top < 2 ^ 32) × Stands cells.now 1 out.old at }
    ensures { Wrote cells.now (write (list 0 least span (num (field (pos 0) top))) cells.now 1) out.old at result out.new }
{
    let n = taken(cells, 1, least + BIAS, span);
    if REFUSED <= n {
        return n;
    }
    let c = put(out, at, 9, n);
    run(BIAS, top, least + n as usize, cells, 2, out, c)
}

// Copies the message in `made` to `bytes`, if the walk that answered `r` made it of all of `cells` cells and `bytes` has room for it.
fn hand_over(r: u64, cells: usize, made: &[u8], bytes: &mut [u8]) -> Result<Done, Failure>
    requires { r / 2 ^ 32 ≤ 16384 → r / 2 ^ 32 ≤ length (target made.now) }
    ensures { (got : Got ℕ Value) → Made got cells r made.now → Handed got cells bytes.old (answered result) bytes.new }
{
    let done = judged(r, cells, bytes.len())?;
    copy_front(&made[..done.count], bytes);
    Ok(done)
}

// What is answered where a walk over the sheet answered `r`, the sheet has `cells` cells, and `room` bytes are lent: the walk's refusal,
// then 7 for a spare cell, then 1, then 8, else the bits and the bytes of the message.
fn judged(r: u64, cells: usize, room: usize) -> Result<Done, Failure>
    ensures { answered result ≡ judged_by (went_by r) cells room }
{
    let k = (r % UNIT) as usize;
    if REFUSED <= r {
        return Err(Failure::Refused(refusal_in(r)));
    }
    let next = (r / UNIT) as usize;
    if k < cells {
        return refused(Reason::NoValue, k);
    }
    if MOST_BITS < next {
        return refused(Reason::TooLong, 0);
    }
    let count = (next + 7) / 8;
    if room < count {
        return Err(Failure::NoRoom(count));
    }
    Ok(Done { bits: next, count })
}

// The answer that refuses for this `reason` at `place`.
fn refused(reason: Reason, place: usize) -> Result<Done, Failure>
    ensures { answered result ≡ refused_by (refusal reason place) }
{
    Err(Failure::Refused(Refusal::new(reason, place)))
}

// Why writing refuses `sheet`, of so many cells that a walk's answer has no room for their places: 7 as passing over its value finds it or
// for a cell too many, else 1, since a value has no more cells than bits.
fn long(rows: &[u32], row: usize, sheet: &[i64]) -> Refusal
    requires { (rows.now ≡ numbers rows_of) × (row < row_count) × (2 ^ 32 ≤ length sheet.now) }
    ensures { (room : ℕ) → refused_by result ≡ write_typed (Some row) sheet.now room }
{
    match passing::pass(rows, row, sheet, 0) {
        Ok(end) => {
            if end < sheet.len() {
                return Refusal::new(Reason::NoValue, end);
            }
            Refusal::new(Reason::TooLong, 0)
        }
        Err(why) => why,
    }
}

// A walk that went on: the next cell `k` and the next place `next` in the bits.
fn on(k: usize, next: usize) -> u64
    requires { (k < 2 ^ 32) × (next ≤ farthest) }
    ensures { went_by result ≡ Went.On 0 k next }
{
    next as u64 * UNIT + k as u64
}

// A walk that stopped: the cell `place` shows that the sheet is no value.
fn no(place: usize) -> u64
    requires { place < 2 ^ 32 }
    ensures { (went_by result ≡ Went.No (no_value place)) × (refused_from ≤ result) }
{
    REFUSED + Reason::NoValue.number() * UNIT + place as u64
}

// Stores the `w` bits of `n` at the place `at` of `out`, which has zeros from there on, where there is room for them, and gives the place
// behind them in any case.
fn put(out: &mut [u8], at: usize, w: usize, n: u64) -> usize
    requires { (w ≤ 32) × (n < 2 ^ w) × (at ≤ farthest) × Clean (target out.old) at }
    ensures counted { result ≡ up_to (at + w) }
    ensures stored { Stored (target out.old) at (to_bits w n) (target out.new) }
{
    let i = at / 8;
    if i + 4 < out.len() {
        store(out, i, n << (40 - w - at % 8));
        return at + w;
    }
    least(at + w, FARTHEST)
}

// Stores the five bytes of `all` in `out` from byte `i` on: the first is added to the one that is there. The four behind it are stored
// before it: of those the compiler makes one store.
fn store(out: &mut [u8], i: usize, all: u64)
    requires { (i + 4 < length out.old) × (get_or out.old i 0 + all / 2 ^ 32 < 256) }
    ensures { out.new ≡ with_five out.old i all }
{
    let first = out[i] + (all >> 32) as u8;
    out[i + 1] = ((all >> 24) % 256) as u8;
    out[i + 2] = ((all >> 16) % 256) as u8;
    out[i + 3] = ((all >> 8) % 256) as u8;
    out[i + 4] = (all % 256) as u8;
    out[i] = first;
}

// How far `cell` is above the lowest value of a range, which the table keeps as `low`, its distance from the lowest 32-bit number; one
// more than `span` where `cell` is outside the range.
fn height(cell: i64, low: usize, span: usize) -> u64
    requires { (low < 2 ^ 32) × (span < 2 ^ 32) }
    ensures { result ≡ height_in span (cell -ℤ lowest_of low) }
{
    let lowest = low as i64 - BIAS_SIGNED;
    if cell < lowest {
        return span as u64 + 1;
    }
    if lowest + (span as i64) < cell {
        return span as u64 + 1;
    }
    (cell - lowest) as u64
}

// The cell `k` of `cells` as a whole number of the range `low` to `low` plus `span`: how far it is above the lowest; or the refusal.
fn taken(cells: &[i64], k: usize, low: usize, span: usize) -> u64
    requires { (length cells.now < 2 ^ 32) × (low < 2 ^ 32) × (span < 2 ^ 32) }
    ensures { Taken cells.now (field (lowest_of low) span) k result }
{
    if cells.len() <= k {
        return no(cells.len());
    }
    let above = height(cells[k], low, span);
    if (span as u64) < above {
        return no(k);
    }
    above
}

// The `options` presence cells of `cells` from `k` on, as a number of so many bits; or the refusal.
fn presence(cells: &[i64], k: usize, options: usize) -> u64
    requires { (length cells.now < 2 ^ 32) × (k ≤ length cells.now) × (options ≤ 32) }
    ensures { Gathered cells.now (bits options writer cells.now k) options (k + options) result }
{
    let mut mask: u64 = 0;
    for i in 0..options {
        let bit = taken(cells, k + i, BIAS, 1);
        if REFUSED <= bit {
            return bit;
        }
        mask = mask * 2 + bit;
    }
    mask
}

// Stores the `n` presence bits of `mask` as `put` does; a sequence with no OPTIONAL component has none.
fn put_flags(out: &mut [u8], at: usize, n: usize, mask: u64) -> usize
    requires { (n ≤ 32) × (mask < 2 ^ n) × (at ≤ farthest) × Clean (target out.old) at }
    ensures counted { result ≡ up_to (at + n) }
    ensures stored { Stored (target out.old) at (to_bits n mask) (target out.new) }
{
    if n == 0 {
        return at;
    }
    put(out, at, n, mask)
}

// The bits of `held` with the `w` bits of `x` behind them.
fn joined(held: u64, w: usize, x: u64) -> u64
    requires { (held < 2 ^ 25) × (w ≤ 8) × (x < 256) }
    ensures { (result ≡ held * 2 ^ w + x) × (result < (held + 1) * 256) }
{
    (held << w) + x
}

// The four cells of `cells` from `k` on as whole numbers of the range `low` to `low` plus `span`, which are `w` bits wide: all bits in one
// number; or the refusal of the first wrong cell.
fn four(low: usize, span: usize, w: usize, cells: &[i64], k: usize) -> u64
    requires { (length cells.now < 2 ^ 32) × (low < 2 ^ 32) × (span < 256) × (w ≡ width span) × (k + 4 ≤ length cells.now) }
    ensures { Gathered cells.now (times 4 (write (num (field (lowest_of low) span))) cells.now k) (4 * w) (k + 4) result }
{
    let first = height(cells[k], low, span);
    if (span as u64) < first {
        return no(k);
    }
    let second = height(cells[k + 1], low, span);
    if (span as u64) < second {
        return no(k + 1);
    }
    let third = height(cells[k + 2], low, span);
    if (span as u64) < third {
        return no(k + 2);
    }
    let fourth = height(cells[k + 3], low, span);
    if (span as u64) < fourth {
        return no(k + 3);
    }
    let three = joined(joined(first, w, second), w, third);
    joined(three, w, fourth)
}

// Writes `n` whole numbers of the range `low` to `low` plus `span` from `cells` at `k` into `out` at `at`, one by one.
fn singles(
    low: usize,
    span: usize,
    n: usize,
    cells: &[i64],
    k: usize,
    out: &mut [u8],
    mut at: usize,
) -> u64
    requires { Stands cells.now k out.old at × (low < 2 ^ 32) × (span < 2 ^ 32) }
    ensures { Wrote cells.now (times n (write (num (field (lowest_of low) span))) cells.now k) out.old at result out.new }
{
    let w = bits::width(span as u64) as usize;
    for i in 0..n {
        let x = taken(cells, k + i, low, span);
        if REFUSED <= x {
            return x;
        }
        at = put(out, at, w, x);
    }
    on(k + n, at)
}

// How many groups of four of `n` numbers of the span `span` are taken at once: all, where the numbers are at most eight bits wide and are
// among the `left` cells that are left; else none.
fn groups(span: usize, n: usize, left: usize) -> usize
    ensures { (4 * result ≤ n) × (0 < result → (span < 256) × (4 * result ≤ left)) }
{
    if 256 <= span {
        return 0;
    }
    if left < n {
        return 0;
    }
    n / 4
}

// Writes `n` whole numbers of the range `low` to `low` plus `span` from `cells` at `k` into `out` at `at`: four at a time where they are
// at most eight bits wide and all there, and the last ones one by one.
fn run(
    low: usize,
    span: usize,
    n: usize,
    cells: &[i64],
    mut k: usize,
    out: &mut [u8],
    mut at: usize,
) -> u64
    requires { Stands cells.now k out.old at × (low < 2 ^ 32) × (span < 2 ^ 32) }
    ensures { Wrote cells.now (times n (write (num (field (lowest_of low) span))) cells.now k) out.old at result out.new }
{
    let w = bits::width(span as u64) as usize;
    let m = groups(span, n, cells.len() - k);
    for _ in 0..m {
        let x = four(low, span, w, cells, k);
        if REFUSED <= x {
            return x;
        }
        at = put(out, at, 4 * w, x);
        k += 4;
    }
    singles(low, span, n - 4 * m, cells, k, out, at)
}

// How many bits a number with the bounds in `word` takes.
fn width_in(rows: &[u32], word: usize) -> usize
    requires { words_from ≤ length rows.now }
    ensures { (result ≡ width (span_in rows.now word)) × (result ≤ 32) }
{
    bits::width(span_in(rows, word) as u64) as usize
}

// The cell `k` of `cells` as a whole number with the bounds in `word`, as `taken` gives it.
fn taken_in(rows: &[u32], word: usize, cells: &[i64], k: usize) -> u64
    requires { (words_from ≤ length rows.now) × (length cells.now < 2 ^ 32) }
    ensures { Taken cells.now (field (lowest_of (low_in rows.now word)) (span_in rows.now word)) k result }
{
    taken(cells, k, low_in(rows, word), span_in(rows, word))
}

// Whether a component with this `mark` is there: by its presence cell, which stands in `cells` at `p`; always where it has none.
fn present(mark: usize, cells: &[i64], p: usize) -> bool
    ensures { result ≡ is_present mark cells.now p }
{
    if mark == 0 {
        return true;
    }
    if cells.len() <= p {
        return false;
    }
    0 < cells[p]
}

// The place behind the extension bit of a row with this `mark`: that bit is 0, as all bits from `at` on are.
fn begun(mark: usize, at: usize) -> usize
    requires { at ≤ farthest }
    ensures { result ≡ begun_by mark at }
{
    if mark == 0 {
        return at;
    }
    least(at + 1, FARTHEST)
}

// Writes the cell `k` of `cells` as a whole number with the bounds in `word` into `out` at `at`.
fn number(rows: &[u32], word: usize, cells: &[i64], k: usize, out: &mut [u8], at: usize) -> u64
    requires { (words_from ≤ length rows.now) × Stands cells.now k out.old at }
    ensures { Wrote cells.now (write_whole (field (lowest_of (low_in rows.now word)) (span_in rows.now word)) cells.now k) out.old at result out.new }
{
    let n = taken_in(rows, word, cells, k);
    if REFUSED <= n {
        return n;
    }
    let next = put(out, at, width_in(rows, word), n);
    on(k + 1, next)
}

// The walk. Table and cells are handed on apart: where the functions were methods of a struct that lends both, writing took 6 in a hundred
// longer.

// Writes a value of the type of `row` of the table `rows` from `cells` at `k` into `out` at `at`.
#[cycle(alternative_components_items_sequence_series_walk)]
fn walk(rows: &[u32], row: usize, cells: &[i64], k: usize, out: &mut [u8], at: usize) -> u64
    requires { Ready rows.now × TypeRow rows.now row × Stands cells.now k out.old at }
    ensures { Wrote cells.now (write (type_of (root_at rows.now) row) cells.now k) out.old at result out.new }
{
    let word = word_at(rows, row);
    let place = begun(word / MARK_FROM % MARK_ROOM, at);
    let kind = word % KIND_ROOM;
    if kind < SEQUENCE {
        return number(rows, word, cells, k, out, place);
    }
    if kind == SEQUENCE {
        return sequence(rows, word, cells, k, out, place);
    }
    if kind == CHOICE {
        return alternative(rows, word, cells, k, out, place);
    }
    series(rows, word, cells, k, out, place)
}

// Writes a sequence, whose row has this `word`: presence bits, then the components that are there.
#[cycle(alternative_components_items_sequence_series_walk)]
fn sequence(rows: &[u32], word: usize, cells: &[i64], k: usize, out: &mut [u8], at: usize) -> u64
    requires { Ready rows.now × PartRows rows.now (word / first_from % first_room) (word / count_from % count_room) × (word / spared_from ≡ options_of (root_at rows.now) (word / first_from % first_room) (word / count_from % count_room)) × (word < 2 ^ 32) × Stands cells.now k out.old at }
    ensures { Wrote cells.now (write (seq (fields_of (root_at rows.now) (type_of (root_at rows.now)) (word / first_from % first_room) (word / count_from % count_room))) cells.now k) out.old at result out.new }
{
    let options = word / SPARED_FROM;
    let mask = presence(cells, k, options);
    if REFUSED <= mask {
        return mask;
    }
    let next = put_flags(out, at, options, mask);
    let first = word / FIRST_FROM % FIRST_ROOM;
    let count = word / COUNT_FROM % COUNT_ROOM;
    components(rows, first, count, k, cells, k + options, out, next)
}

// Writes the `count` components from row `first`. Their presence cells start at the place `flag` and are looked at again. A component whose word
// spares the look at its type is a whole number with the bounds in that word.
#[cycle(alternative_components_items_sequence_series_walk)]
fn components(
    rows: &[u32],
    first: usize,
    count: usize,
    mut flag: usize,
    cells: &[i64],
    mut k: usize,
    out: &mut [u8],
    mut at: usize,
) -> u64
    requires { Ready rows.now × PartRows rows.now first count × (count < 2 ^ 32) × (flag < 2 ^ 32) × Stands cells.now k out.old at }
    ensures { Wrote cells.now (fields (fields_of (root_at rows.now) (type_of (root_at rows.now)) first count) (flags_from (fields_of (root_at rows.now) (type_of (root_at rows.now)) first count) (cell_at cells.now) flag) writer cells.now k) out.old at result out.new }
{
    for row in first..first + count {
        let part = word_at(rows, row);
        let mark = part / MARK_FROM % MARK_ROOM;
        let here = present(mark, cells, flag);
        flag = past(mark, flag);
        if here {
            if SPARED_FROM <= part {
                let x = taken_in(rows, part, cells, k);
                if REFUSED <= x {
                    return x;
                }
                at = put(out, at, width_in(rows, part), x);
                k += 1;
            } else {
                let r = walk(rows, part / FIRST_FROM % FIRST_ROOM, cells, k, out, at);
                if REFUSED <= r {
                    return r;
                }
                k = (r % UNIT) as usize;
                at = (r / UNIT) as usize;
            }
        }
    }
    on(k, at)
}

// Writes a choice, whose row has this `word`: its index, then the alternative.
#[cycle(alternative_components_items_sequence_series_walk)]
fn alternative(rows: &[u32], word: usize, cells: &[i64], k: usize, out: &mut [u8], at: usize) -> u64
    requires { Ready rows.now × PartRows rows.now (word / first_from % first_room) (span_in rows.now word + 1) × Stands cells.now k out.old at }
    ensures { Wrote cells.now (write (choice 0 (alts_of (root_at rows.now) (type_of (root_at rows.now)) (word / first_from % first_room) (span_in rows.now word))) cells.now k) out.old at result out.new }
{
    let n = taken(cells, k, BIAS, span_in(rows, word));
    if REFUSED <= n {
        return n;
    }
    let next = put(out, at, width_in(rows, word), n);
    let part = word_at(rows, word / FIRST_FROM % FIRST_ROOM + n as usize);
    walk(
        rows,
        part / FIRST_FROM % FIRST_ROOM,
        cells,
        k + 1,
        out,
        next,
    )
}

// Writes a list, whose row has this `word`: its size where sizes differ, then the items.
#[cycle(alternative_components_items_sequence_series_walk)]
fn series(rows: &[u32], word: usize, cells: &[i64], k: usize, out: &mut [u8], at: usize) -> u64
    requires { Ready rows.now × TypeRow rows.now (word / first_from % first_room) × (bias ≤ low_in rows.now word) × Stands cells.now k out.old at }
    ensures { Wrote cells.now (write (list 0 (low_in rows.now word - bias) (span_in rows.now word) (type_of (root_at rows.now) (word / first_from % first_room))) cells.now k) out.old at result out.new }
{
    let mut n = low_in(rows, word) - BIAS;
    let mut q = k;
    let mut c = at;
    if span_in(rows, word) != 0 {
        let x = taken_in(rows, word, cells, k);
        if REFUSED <= x {
            return x;
        }
        n += x as usize;
        q += 1;
        c = put(out, at, width_in(rows, word), x);
    }
    let t = word / FIRST_FROM % FIRST_ROOM;
    items(rows, t, n, cells, q, out, c)
}

// Writes `n` items of the type of row `t` from `cells` at `k` into `out` at `at`: whole numbers with no extension bit need no walk.
#[cycle(alternative_components_items_sequence_series_walk)]
fn items(
    rows: &[u32],
    t: usize,
    n: usize,
    cells: &[i64],
    mut k: usize,
    out: &mut [u8],
    mut at: usize,
) -> u64
    requires { Ready rows.now × TypeRow rows.now t × Stands cells.now k out.old at }
    ensures { Wrote cells.now (times n (write (type_of (root_at rows.now) t)) cells.now k) out.old at result out.new }
{
    let word = word_at(rows, t);
    if word % BOUNDS_FROM < SEQUENCE {
        return run(
            low_in(rows, word),
            span_in(rows, word),
            n,
            cells,
            k,
            out,
            at,
        );
    }
    for _ in 0..n {
        let r = walk(rows, t, cells, k, out, at);
        if REFUSED <= r {
            return r;
        }
        k = (r % UNIT) as usize;
        at = (r / UNIT) as usize;
    }
    on(k, at)
}

// The word of `row` of the table `rows`. These three stand here too, and in no crate for both walks: a function that other crates can call asks
// nothing of its caller, and to ask nothing would take a comparison more at each step of a walk.
fn word_at(rows: &[u32], row: usize) -> usize
    requires { words_from + row < length rows.now }
    ensures { (result ≡ word_at rows.now row) × (result < 2 ^ 32) }
{
    rows[WORDS_FROM + row] as usize
}

// The lowest value that stands in `word`, as its distance from the lowest 32-bit number.
fn low_in(rows: &[u32], word: usize) -> usize
    requires { words_from ≤ length rows.now }
    ensures { (result ≡ low_in rows.now word) × (result < 2 ^ 32) }
{
    rows[2 * (word / BOUNDS_FROM % BOUNDS_ROOM)] as usize
}

// The highest value minus the lowest that stands in `word`.
fn span_in(rows: &[u32], word: usize) -> usize
    requires { words_from ≤ length rows.now }
    ensures { (result ≡ span_in rows.now word) × (result < 2 ^ 32) }
{
    rows[2 * (word / BOUNDS_FROM % BOUNDS_ROOM) + 1] as usize
}
