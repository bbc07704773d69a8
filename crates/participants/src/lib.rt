// The RSM sending profile: the ids of the participants that a roadside unit tells, and the fields that each of them has to have.
// What each function answers is defined in specs/.
#![tactic(auto)]

ghost use Rattle.std.specs.Prelude.{◌≡◌, ◌≤◌, ◌<◌, ℕ, length};
ghost use Rattle.types.specs.Rows;
ghost use Rattle.types.specs.Table.{numbers};
ghost use Rattle.meaning.specs.Values.{Value, Parts, Values};
ghost use Rattle.sheet.specs.Values.{parts_of};
ghost use Rattle.sheet.specs.Standing.{Stands};
ghost use Rattle.messages.specs.Taking.{Rowed};
ghost use Rattle.rules.specs.Rsi.{first_broken, passes};
ghost use Rattle.rules.specs.Breaches.{broken, told, Judges};
ghost use Rattle.participants.specs.Rsm.{field_rule, profiled, rsm_ruled};
ghost use Rattle.participants.specs.Steps.{participant_row, Gathered};

use answers::Reason;
use messages::{Listing, RSM_FRAME, behind, entries_of, framed, number_of, position};
use rules::Breach;
use sheet::has;

// Components of RoadsideSafetyMessage (source 000, 5.2.2.4) and ParticipantData (5.2.3.23).
const PARTICIPANTS: usize = 3;

const PTC_ID: usize = 1;

const VEHICLE_CLASS: usize = 14;

// How many participants an RSM has at most, and the id of the unit itself.
const MOST_PARTICIPANTS: usize = 16;

const UNIT_ID: u64 = 0;

// Checks a sheet of the message frame against the RSM sending profile: the first thing that is wrong.
pub fn check_rsm(sheet: &[i64]) -> Result<(), Breach>
    ensures { told result ≡ rsm_ruled sheet.now }
{
    let rows = types::rows();
    let frame = framed(&rows, sheet)?;
    if frame.index != RSM_FRAME {
        return Err(Breach::new(Reason::NoRsm, 0));
    }
    let list = entries_of(&rows, frame.row, PARTICIPANTS, sheet, frame.place);
    judge(&rows, list, sheet)
}

// The first thing that is wrong with the participants of `list` in `sheet`: first their ids, then the fields of each.
fn judge(rows: &[u32], list: Listing, sheet: &[i64]) -> Result<(), Breach>
    requires { (rows.now ≡ numbers Rows.rows) × (list.count ≤ 16) }
    ensures { (vs : Values) → Rowed sheet.now participant_row list vs → told result ≡ profiled vs }
{
    let mut ids = [0u64; MOST_PARTICIPANTS];
    if let Some(again) = gather(rows, list, sheet, &mut ids) {
        return Err(Breach::new(Reason::RepeatedId, again));
    }
    let count = list.count as usize;
    if count <= position(&ids, count, UNIT_ID) {
        return Err(Breach::new(Reason::UnitMissing, 0));
    }
    first_breach(rows, list, sheet, |at| {
        field_rule(rows, list.row, sheet, at)
    })
}

// Puts the id of each participant of `list` in `sheet` into `ids`, as long as none repeats an earlier one. Answers the one that does.
fn gather(rows: &[u32], list: Listing, sheet: &[i64], ids: &mut [u64]) -> Option<usize>
    requires { (rows.now ≡ numbers Rows.rows) × (list.count ≤ 16) × (length ids.old ≡ 16) }
    ensures { (vs : Values) → Rowed sheet.now participant_row list vs → Gathered vs list.count ids.new result }
{
    // A loop of its own: a closure that changes `ids` would leave nothing known of what it returned.
    let mut at = list.place;
    for i in 0..list.count as usize {
        let id = number_of(rows, list.row, PTC_ID, sheet, at);
        let met = position(ids, i, id);
        if met < i {
            return Some(i);
        }
        ids[i] = id;
        at = behind(rows, list.row, sheet, at);
    }
    None
}

// The first entry of `list` in `sheet` that breaks a rule, where `rule` says which one the entry at a place breaks. In rules the
// same step is `breach_among`: a function that other crates can call asks nothing of its caller, and this one asks that `rule` can be called.
fn first_breach<F: Fn(usize) -> Option<Reason>>(
    rows: &[u32],
    list: Listing,
    sheet: &[i64],
    rule: F,
) -> Result<(), Breach>
    requires calls { F.IsAlwaysCallable rule }
    ensures { rows.now ≡ numbers Rows.rows → (broken_by : Parts → ℕ) (row : ℕ) (vs : Values) → row < 414 → Rowed sheet.now row list vs → Judges (F.post rule) sheet.now list row broken_by → told result ≡ first_broken broken_by 0 vs passes }
{
    let mut at = list.place;
    for i in 0..list.count as usize {
        if let Some(reason) = rule(at) {
            return Err(Breach::new(reason, i));
        }
        at = behind(rows, list.row, sheet, at);
    }
    Ok(())
}

// The rule that the participant at `place` of `sheet` breaks: which required field it lacks.
fn field_rule(rows: &[u32], row: usize, sheet: &[i64], place: usize) -> Option<Reason>
    requires { rows.now ≡ numbers Rows.rows }
    ensures { (v : Value) → row ≡ participant_row → Stands sheet.now row place v → broken result ≡ field_rule (parts_of v) }
{
    if has(rows, row, VEHICLE_CLASS, sheet, place) {
        None
    } else {
        Some(Reason::FieldMissing)
    }
}
