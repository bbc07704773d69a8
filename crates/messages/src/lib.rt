// What a check takes from the sheet of a frame: its message, the entries of a component, the number in one, and the place behind a value; and where a
// key stands among those of the entries before.
// What each function answers is defined in specs/.
#![tactic(auto)]

pub mod seeking;

ghost use Rattle.std.specs.Prelude.{◌≡◌, ◌==◌, position};
ghost use Rattle.sheet.specs.Says.{choice_says};
ghost use Rattle.messages.specs.Keys.{place_of};
ghost use Rattle.messages.specs.Taking.{framed_at, framed_answer, nothing, listing_by, listing_at, number_at, behind_at};

use answers::Refusal;
use basics::least;
pub use seeking::{FirstTold, first_told};
pub use sheet::Listing;
use sheet::{Choice, chosen, component, entries, pass, sole, value};
use types::names::MESSAGE_FRAME;

// The alternatives of MessageFrame (source 000, 5.2.1), and what is none.
pub const BSM_FRAME: u64 = 0;

pub const MAP_FRAME: u64 = 1;

pub const RSM_FRAME: u64 = 2;

pub const SPAT_FRAME: u64 = 3;

pub const RSI_FRAME: u64 = 4;

pub const NO_FRAME: u64 = 5;

// The message in the frame that is all of `sheet`: which alternative it is, the row of its type and its place; or why `sheet` is no frame.
pub fn framed(rows: &[u32], sheet: &[i64]) -> Result<Choice, Refusal>
    ensures answer { result ≡ framed_at rows.now sheet.now }
    ensures says { choice_says result ≡ framed_answer rows.now sheet.now }
{
    sole(rows, MESSAGE_FRAME, sheet)?;
    chosen(rows, MESSAGE_FRAME, sheet, 0)
}

// The entries of component `k`, a list, of the sequence of the type of `row` that stands at `place` of `sheet`; none where it is absent.
pub fn entries_of(rows: &[u32], row: usize, k: usize, sheet: &[i64], place: usize) -> Listing
    ensures { result ≡ listing_at rows.now row k sheet.now place }
{
    match component(rows, row, k, sheet, place) {
        Ok(Some(list)) => entries(rows, list.row, sheet, list.place).unwrap_or(none()),
        Ok(None) => none(),
        Err(_) => none(),
    }
}

// No entries: all that a listing says is 0.
fn none() -> Listing
    ensures { result ≡ nothing }
{
    Listing {
        count: 0,
        row: 0,
        place: 0,
    }
}

// The number in component `k` of the sequence of the type of `row` that stands at `place` of `sheet`; 0 where it is absent.
pub fn number_of(rows: &[u32], row: usize, k: usize, sheet: &[i64], place: usize) -> u64
    ensures { result ≡ number_at rows.now row k sheet.now place }
{
    match component(rows, row, k, sheet, place) {
        Ok(Some(part)) => value(sheet, part.place),
        Ok(None) => 0,
        Err(_) => 0,
    }
}

// The place behind the value of the type of `row` that stands at `place` of `sheet`; `place` itself where none does.
pub fn behind(rows: &[u32], row: usize, sheet: &[i64], place: usize) -> usize
    ensures { result ≡ behind_at rows.now row sheet.now place }
{
    pass(rows, row, sheet, place).unwrap_or(place)
}

// Which of the first `count` of `keys` is `key`; how many they are where none is.
pub fn position(keys: &[u64], count: usize, key: u64) -> usize
    ensures { result ≡ place_of key count keys.now }
{
    let most = least(count, keys.len());
    first(&keys[..most], key).unwrap_or(most)
}

// The place of the first of `keys` that is `key`.
fn first(keys: &[u64], key: u64) -> Option<usize>
    ensures { result ≡ position (λ k. k == key) keys.now }
{
    keys.iter().position(|k| *k == key)
}
