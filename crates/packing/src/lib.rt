// The entries that are packed into RSI messages, and the header of these: whether they are of their form, and how many bits each of them has.
// What each function answers is defined in specs/.
#![tactic(auto)]

ghost use Rattle.std.specs.Prelude.{◌≡◌, ◌≤◌, ◌-◌, pos, length, get_or};
ghost use Rattle.bits.specs.Numbers.{width};
ghost use Rattle.types.specs.Rows;
ghost use Rattle.types.specs.Table.{numbers};
ghost use Rattle.meaning.specs.Messages.{row_named};
ghost use Rattle.messages.specs.Message.{message_in};
ghost use Rattle.rules.specs.Lists.{item_row};
ghost use Rattle.packing.specs.Entries.{below, header_in, pieces_from, most_in};
ghost use Rattle.packing.specs.Sizes.{lengths_of};
ghost use Rattle.packing.specs.Steps.{SizeOf, Measured, told};

use messages::{RSI_FRAME, framed};
use sheet::{Choice, has, pass};
use types::names::{MESSAGE_FRAME, RTE_DATA, RTS_DATA};
use writing::write_row;

// The kind of entries that are signs; events are 0. A kind is a number, and no enum, as any number may come in through the C interface.
const SIGNS: u64 = 1;

// How many entries there are at most.
const MOST_ENTRIES: usize = 64;

// Components of RoadSideInformation (source 000, 5.2.2.3): rtes, rtss.
const EVENT_LIST: usize = 4;

const SIGN_LIST: usize = 5;

// The bytes of the longest message, and one bit more than these have.
const MOST_BYTES: usize = 2048;

const STOP: u64 = 16385;

// How many bits the size of a list has: RTEList has 1 to 8 entries, RTSList 1 to 16 (source 000, 5.2.3.54 and 5.2.3.56).
const EVENT_SIZE_BITS: u64 = 3;

const SIGN_SIZE_BITS: u64 = 4;

// Of header and entries: how many entries there are; how many bits a message has besides those of its entries; and how many bits each entry has, which
// stop at one more than every message has room for.
#[derive(Clone, Copy)]
pub struct Measures {
    pub count: usize,
    pub base: u64,
    pub sizes: [u64; 64],
}

// Measures the header in `header` and the entries in `entries`, events (`kind` 0) or signs (1), each of them once; none where they are not of their
// form.
pub fn measured(kind: u64, header: &[i64], entries: &[i64]) -> Option<Measures>
    ensures { told result ≡ lengths_of kind header.now entries.now }
{
    if SIGNS < kind {
        return None;
    }
    let rows = types::rows();
    if !is_header(&rows, header) {
        return None;
    }
    if entries.len() == 0 {
        return None;
    }
    let count = number_at(entries, 0, MOST_ENTRIES + 1);
    if MOST_ENTRIES < count {
        return None;
    }
    let signs = kind == SIGNS;
    let mut sizes = [0u64; MOST_ENTRIES];
    if !measure(&rows, signs, entries, count, &mut sizes) {
        return None;
    }
    let base = size_of(MESSAGE_FRAME, header) + size_bits(signs);
    Some(Measures { count, base, sizes })
}

// Whether `header` is a sheet of a frame with an RSI in it that has neither list.
fn is_header(rows: &[u32], header: &[i64]) -> bool
    requires { rows.now ≡ numbers Rows.rows }
    ensures { result ≡ header_in (message_in header.now) }
{
    match framed(rows, header) {
        Ok(Choice { index, row, place }) => {
            if index != RSI_FRAME {
                return false;
            }
            if has(rows, row, EVENT_LIST, header, place) {
                return false;
            }
            !has(rows, row, SIGN_LIST, header, place)
        }
        Err(_) => false,
    }
}

// How many bits the size of a list of signs has, or of one of events.
fn size_bits(signs: bool) -> u64
    ensures { result ≡ width (most_in signs - 1) }
{
    if signs {
        return SIGN_SIZE_BITS;
    }
    EVENT_SIZE_BITS
}

// How many bits the value of the type of `row` has whose cells are all of `cells`; STOP where they are more than every message has room for.
fn size_of(row: usize, cells: &[i64]) -> u64
    requires { row_named row ≡ Some row }
    ensures { SizeOf row cells.now result }
{
    let mut bytes = [0u8; MOST_BYTES];
    match write_row(row, cells, &mut bytes) {
        Ok(done) => done.bits as u64,
        Err(_) => STOP,
    }
}

// The row of the type of an entry, a sign or an event.
fn item_row(signs: bool) -> usize
    ensures { result ≡ item_row signs }
{
    if signs {
        return RTS_DATA;
    }
    RTE_DATA
}

// Puts the sizes of the `count` entries in `entries`, signs or events, into `sizes`. Whether they are values one behind the other, and nothing is behind
// them.
fn measure(rows: &[u32], signs: bool, entries: &[i64], count: usize, sizes: &mut [u64]) -> bool
    requires { (rows.now ≡ numbers Rows.rows) × (count ≤ 64) × (length sizes.old ≡ 64) × (1 ≤ length entries.now) }
    ensures { Measured signs (pieces_from (item_row signs) count entries.now 1) count sizes.old sizes.new result }
{
    let row = item_row(signs);
    let mut at = 1;
    for i in 0..count {
        match pass(rows, row, entries, at) {
            Ok(next) => {
                sizes[i] = size_of(row, &entries[at..next]);
                at = next;
            }
            Err(_) => {
                return false;
            }
        }
    }
    at == entries.len()
}

// The number in cell `k` of `cells` where it is one below `bound`; `bound` where it is below 0 or not below that. Past the end of `cells` it is 0.
pub fn number_at(cells: &[i64], k: usize, bound: usize) -> usize
    ensures { result ≡ below bound (get_or cells.now k (pos 0)) }
{
    if cells.len() <= k {
        return 0;
    }
    let cell = cells[k];
    if cell < 0 {
        return bound;
    }
    let n = cell as usize;
    if n < bound {
        return n;
    }
    bound
}
