// The rules for what a roadside unit sends: the RSI check over a sheet of type 0.
#![tactic(auto)]

pub mod seeking;

ghost use Rattle.std.specs.Prelude.{◌≡◌, ◌<◌, ℕ, true, false};
ghost use Rattle.types.specs.Rows;
ghost use Rattle.types.specs.Table.{numbers};
ghost use Rattle.meaning.specs.Values.{Value, Parts, Values};
ghost use Rattle.sheet.specs.Values.{parts_of};
ghost use Rattle.sheet.specs.Standing.{Stands};
ghost use Rattle.messages.specs.Message.{rsi_frame};
ghost use Rattle.messages.specs.Taking.{Framed, Rowed};
ghost use Rattle.rules.specs.Rsi.{event_rule, sign_rule, first_broken, ruled, passes};
ghost use Rattle.rules.specs.Breaches.{breach, broken, told, Judges};
ghost use Rattle.rules.specs.Lists.{item_row};

use answers::{Reason, Refusal};
use messages::{Listing, RSI_FRAME, behind, entries_of, framed};
pub use seeking::{FirstBreach, first_breach};
use sheet::has;

// Components of RoadSideInformation (source 000, 5.2.2.3): rtes, rtss.
const EVENTS: usize = 4;

const SIGNS: usize = 5;

// Components of RTEData (source 000, 5.2.3.53): eventPos, eventRadius, referencePaths, referenceLinks.
const EVENT_POS: usize = 3;

const EVENT_RADIUS: usize = 4;

const EVENT_PATHS: usize = 8;

const EVENT_LINKS: usize = 9;

// Components of RTSData (source 000, 5.2.3.55): signPos, description, referencePaths, referenceLinks.
const SIGN_POS: usize = 2;

const SIGN_DESCRIPTION: usize = 3;

const SIGN_PATHS: usize = 6;

const SIGN_LINKS: usize = 7;

// A rule that is broken: which one, and the entry that breaks it.
#[derive(Clone, Copy, Debug, PartialEq, Eq, Hash)]
pub struct Breach {
    pub reason: Reason,
    pub place: usize,
}

impl Breach {
    // That the entry at this place breaks a rule, for this reason.
    pub fn new(reason: Reason, place: usize) -> Self
        ensures { result ≡ breach reason place }
    {
        Breach { reason, place }
    }
}

// A sheet that is no frame breaks the rules too: for the reason for which it was refused, and there.
impl From<Refusal> for Breach {
    ghost from_gives = { λ why broken. broken ≡ breach why.reason why.place };

    fn from(why: Refusal) -> Breach {
        Breach::new(why.reason, why.place)
    }
}

// Checks a sheet of the message frame against the RSI sending rules: the first one that is broken.
pub fn check_rsi(sheet: &[i64]) -> Result<(), Breach>
    ensures { told result ≡ ruled sheet.now }
{
    let rows = types::rows();
    let frame = framed(&rows, sheet)?;
    if frame.index != RSI_FRAME {
        return Err(Breach::new(Reason::NoRsi, 0));
    }
    check_lists(&rows, frame.row, sheet, frame.place)
}

// The rules over the two lists of the RSI of the type of `row` at `place` of `sheet`: first the events, then the signs.
fn check_lists(rows: &[u32], row: usize, sheet: &[i64], place: usize) -> Result<(), Breach>
    requires { (rows.now ≡ numbers Rows.rows) × Framed sheet.now rsi_frame row place }
    ensures { told result ≡ ruled sheet.now }
{
    let events = entries_of(rows, row, EVENTS, sheet, place);
    breach_among(rows, events, sheet, |at| {
        event_rule(rows, events.row, sheet, at)
    })?;
    let signs = entries_of(rows, row, SIGNS, sheet, place);
    breach_among(rows, signs, sheet, |at| {
        sign_rule(rows, signs.row, sheet, at)
    })
}

// The first entry of `list` in `sheet` that breaks a rule, where `rule` says which one the entry at a place breaks. It is
// what `next` of `first_breach` gives, at once: a step of the check, whose loop keeps nothing from call to call. Participants has the same step, as a
// function that other crates can call asks nothing of its caller, and this one asks that `rule` can be called.
fn breach_among<F: Fn(usize) -> Option<Reason>>(
    rows: &[u32],
    list: Listing,
    sheet: &[i64],
    rule: F,
) -> Result<(), Breach>
    requires calls { F.IsAlwaysCallable rule }
    ensures { rows.now ≡ numbers Rows.rows → (broken_by : Parts → ℕ) (row : ℕ) (vs : Values) → row < 414 → Rowed sheet.now row list vs → Judges (F.post rule) sheet.now list row broken_by → told result ≡ first_broken broken_by 0 vs passes }
{
    let mut at = list.place;
    for i in 0..list.count as usize {
        if let Some(reason) = rule(at) {
            return Err(Breach::new(reason, i));
        }
        at = behind(rows, list.row, sheet, at);
    }
    Ok(())
}

// The rule that the event at `place` breaks.
fn event_rule(rows: &[u32], row: usize, sheet: &[i64], place: usize) -> Option<Reason>
    requires { rows.now ≡ numbers Rows.rows }
    ensures { (v : Value) → row ≡ item_row false → Stands sheet.now row place v → broken result ≡ event_rule (parts_of v) }
{
    if !has(rows, row, EVENT_POS, sheet, place) {
        return Some(Reason::EventPosition);
    }
    if has(rows, row, EVENT_RADIUS, sheet, place) {
        return None;
    }
    if has(rows, row, EVENT_PATHS, sheet, place) {
        return None;
    }
    if has(rows, row, EVENT_LINKS, sheet, place) {
        return None;
    }
    Some(Reason::EventReach)
}

// The rule that the sign at `place` breaks.
fn sign_rule(rows: &[u32], row: usize, sheet: &[i64], place: usize) -> Option<Reason>
    requires { rows.now ≡ numbers Rows.rows }
    ensures { (v : Value) → row ≡ item_row true → Stands sheet.now row place v → broken result ≡ sign_rule (parts_of v) }
{
    if !has(rows, row, SIGN_POS, sheet, place) {
        return Some(Reason::SignPosition);
    }
    if !has(rows, row, SIGN_DESCRIPTION, sheet, place) {
        return Some(Reason::SignDescription);
    }
    if has(rows, row, SIGN_PATHS, sheet, place) {
        return None;
    }
    if has(rows, row, SIGN_LINKS, sheet, place) {
        return None;
    }
    Some(Reason::SignReach)
}
