// The library for programs in C and in other languages: each function calls one proved entry and hands its answer over in memory
// that the caller lends. include/knotsaffron.h says the same to a C compiler.
#![tactic(auto)]

ghost use Rattle.std.specs.Prelude.{◌≡◌};
ghost use Rattle.answers.specs.Answers.{answered, read_told};
ghost use Rattle.meaning.specs.Messages.{told_reading, sheet_after, write_message, bytes_after};
ghost use Rattle.position.specs.Resolution.{resolution};
ghost use Rattle.loss.specs.Ring.{missed_between};
ghost use Rattle.rules.specs.Rsi.{ruled};
ghost use Rattle.participants.specs.Rsm.{rsm_ruled};
ghost use Rattle.signals.specs.Signal.{signal_verdict};
ghost use Rattle.plans.specs.Plans.{plan_checked};
ghost use Rattle.plans.specs.Planner.{plan_answer, plan_after};
ghost use Rattle.parties.specs.Parties.{empty_parties, reported_by, dropped_by, shown_by, answered_with};
ghost use Rattle.parties.specs.declared.Parties.{Parties};
ghost use Rattle.senders.specs.Table.{showing};
ghost use Rattle.rules.specs.Breaches.{told as ruling_told};
ghost use Rattle.signals.specs.Mismatches.{told as verdict_told};
ghost use Rattle.knotsaffron.specs.Cells.{read_cells, written_cells, resolved_cells, loss_number, ruling_cells, verdict_cells, planned_cells, changed_cells, shown_cells, shown_id};

use answers::{Answer, Done, Failure, Reading, Reason};
use parties::Parties;
use plans::planner::make_plan;
use rules::Breach;
use senders::Sender;
use signals::Mismatch;

// Reads a message into the lent sheet. The answer is number, place, bits, cells, the row that 41 to 44 name, with 3 how many bits of the
// field are not there, the edition and the type number.
#[unsafe(no_mangle)]
pub extern "C" fn knotsaffron_read(
    type_number: u64,
    bytes: &[u8],
    sheet: &mut [i64],
    answer: &mut [u64; 8],
)
    ensures told { answer.new ≡ read_cells (told_reading type_number bytes.now sheet.old) }
    ensures cells { sheet.new ≡ sheet_after type_number bytes.now sheet.old }
{
    *answer = cells_of_reading(reader::read(type_number, bytes, sheet));
}

// Writes a sheet of this edition into the lent bytes. The answer is number, place, bits and bytes.
#[unsafe(no_mangle)]
pub extern "C" fn knotsaffron_write(
    edition: u64,
    type_number: u64,
    sheet: &[i64],
    bytes: &mut [u8],
    answer: &mut [u64; 4],
)
    ensures told { answer.new ≡ written_cells (write_message edition type_number sheet.now bytes.old) }
    ensures message { bytes.new ≡ bytes_after edition type_number sheet.now bytes.old }
{
    *answer = cells_of_writing(writer::write(edition, type_number, sheet, bytes));
}

// Resolves a position. The answer is number, which is 0 for done, latitude and longitude; `first` is the longitude's number and `second` the
// latitude's.
#[unsafe(no_mangle)]
pub extern "C" fn knotsaffron_resolve(
    latitude: i64,
    longitude: i64,
    form: i64,
    first: i64,
    second: i64,
    answer: &mut [i64; 3],
)
    ensures { answer.new ≡ resolved_cells (resolution latitude longitude form first second) }
{
    *answer = match position::resolve(latitude, longitude, form, first, second) {
        Ok(place) => [0, place.latitude, place.longitude],
        Err(why) => [why.number() as i64, 0, 0],
    };
}

// The number of a call that was done.
const DONE: u64 = 0;

// The messages missed are below this number, so the number stands above them.
const MISSED_ROOM: u64 = 256;

// Counts the messages missed between two message counts. The answer is the number times 256, plus the messages missed.
#[unsafe(no_mangle)]
pub extern "C" fn knotsaffron_missed(old_count: u8, new_count: u8) -> u64
    ensures { result ≡ loss_number (missed_between old_count new_count) }
{
    match loss::missed(old_count, new_count) {
        Ok(missed) => u64::from(missed),
        Err(why) => why.number() * MISSED_ROOM,
    }
}

// Checks a sheet of a message frame against the RSI sending rules. The answer is number and place.
#[unsafe(no_mangle)]
pub extern "C" fn knotsaffron_check_rsi(sheet: &[i64], answer: &mut [u64; 2])
    ensures { answer.new ≡ ruling_cells (ruled sheet.now) }
{
    *answer = cells_of_ruling(rules::check_rsi(sheet));
}

// Checks a sheet of a message frame against the RSM sending profile. The answer is number and place.
#[unsafe(no_mangle)]
pub extern "C" fn knotsaffron_check_rsm(sheet: &[i64], answer: &mut [u64; 2])
    ensures { answer.new ≡ ruling_cells (rsm_ruled sheet.now) }
{
    *answer = cells_of_ruling(participants::check_rsm(sheet));
}

// The cells of what was `checked`: number and place, both 0 where nothing is wrong.
#[tactic(auto, unfolding(rules::specs::Breaches::told))]
fn cells_of_ruling(checked: Result<(), Breach>) -> [u64; 2]
    ensures { result ≡ ruling_cells (ruling_told checked) }
{
    match checked {
        Ok(_) => [0, 0],
        Err(breach) => [breach.reason.number(), breach.place as u64],
    }
}

// Checks the signal message in one sheet against the map in another, both of message frames. The answer is number, node and phase.
#[unsafe(no_mangle)]
pub extern "C" fn knotsaffron_check_signal(signal: &[i64], map: &[i64], answer: &mut [u64; 3])
    ensures { answer.new ≡ verdict_cells (signal_verdict signal.now map.now) }
{
    *answer = cells_of_verdict(signals::check_signal(signal, map));
}

// The cells of what was `checked` of a signal message: number, node and phase, all 0 where nothing is wrong.
#[tactic(auto, unfolding(signals::specs::Mismatches::told))]
fn cells_of_verdict(checked: Result<(), Mismatch>) -> [u64; 3]
    ensures { result ≡ verdict_cells (verdict_told checked) }
{
    match checked {
        Ok(_) => [0, 0, 0],
        Err(why) => [why.reason.number(), why.node as u64, why.phase],
    }
}

// Checks a plan for entries of RSI messages, events (`kind` 0) or signs (1), with the header in one sheet, the entries in another, and at most
// `limit` bytes a message. The answer is number and place.
#[unsafe(no_mangle)]
pub extern "C" fn knotsaffron_check_plan(
    kind: u64,
    header: &[i64],
    entries: &[i64],
    plan: &[i64],
    limit: u64,
    answer: &mut [u64; 2],
)
    ensures { answer.new ≡ ruling_cells (plan_checked kind header.now entries.now plan.now limit) }
{
    *answer = cells_of_ruling(plans::check_plan(kind, header, entries, plan, limit));
}

// Makes a plan for entries of RSI messages into the lent cells, from the same input. The answer is number, place and cells.
#[unsafe(no_mangle)]
pub extern "C" fn knotsaffron_make_plan(
    kind: u64,
    header: &[i64],
    entries: &[i64],
    limit: u64,
    plan: &mut [i64],
    answer: &mut [u64; 3],
)
    ensures told { answer.new ≡ planned_cells (plan_answer kind header.now entries.now limit plan.old) }
    ensures cells { plan.new ≡ plan_after kind header.now entries.now limit plan.old }
{
    *answer = cells_of_planning(make_plan(kind, header, entries, limit, plan));
}

// Makes the lent loss table one with no sender of either party, whatever it held.
#[unsafe(no_mangle)]
pub extern "C" fn knotsaffron_losses_start(table: &mut Parties)
    ensures { table.new ≡ empty_parties }
{
    *table = Parties::new();
}

// Reports a message of this kind and count by the sender with this id to the rows of a `party` of the lent loss table. The answer is number
// and row, which is counted within the party.
#[unsafe(no_mangle)]
pub extern "C" fn knotsaffron_losses_report(
    table: &mut Parties,
    party: u64,
    kind: u64,
    id: &[u8; 8],
    count: u8,
    answer: &mut [u64; 2],
)
    ensures { (table.new ≡ (reported_by table.old party kind id.now count).parties)
        × (answer.new ≡ changed_cells (reported_by table.old party kind id.now count)) }
{
    let told = table.report(party, kind, *id, count);
    *answer = cells_of_change(told);
}

// Drops the sender with this kind and id from the rows of a `party` of the lent loss table. The answer is number and row, which is counted
// within the party.
#[unsafe(no_mangle)]
pub extern "C" fn knotsaffron_losses_drop(
    table: &mut Parties,
    party: u64,
    kind: u64,
    id: &[u8; 8],
    answer: &mut [u64; 2],
)
    ensures { (table.new ≡ (dropped_by table.old party kind id.now).parties)
        × (answer.new ≡ changed_cells (dropped_by table.old party kind id.now)) }
{
    let told = table.drop(party, kind, *id);
    *answer = cells_of_change(told);
}

// Shows what stands in a row of a `party` of the lent loss table. The answer is number, kind, first count, last count, received and missed; the
// sender's id is put into `id`, which is left as it is where no sender stands there, or where no such party is.
#[unsafe(no_mangle)]
#[tactic(auto, using(answers::proofs::Numbered::never_done))]
pub extern "C" fn knotsaffron_losses_row(
    table: &Parties,
    party: u64,
    row: u64,
    id: &mut [u8; 8],
    answer: &mut [u64; 6],
)
    ensures { (id.new ≡ shown_id (shown_by table.now party row) id.old)
        × (answer.new ≡ shown_cells (shown_by table.now party row)) }
{
    let told = table.show(party, row);
    if let Ok(sender) = told {
        let own = sender.id;
        *id = own;
    }
    *answer = cells_of_showing(told);
}

// The answer of reading, as cells.
fn cells_of_reading(told: Reading) -> [u64; 8]
    ensures { result ≡ read_cells (read_told told) }
{
    let answer = Answer::from(told.answer);
    [
        answer.number,
        answer.place as u64,
        answer.bits as u64,
        answer.count as u64,
        answer.row as u64,
        answer.lacking as u64,
        told.edition,
        told.type_number,
    ]
}

// The answer of writing, as cells.
fn cells_of_writing(told: Result<Done, Failure>) -> [u64; 4]
    ensures { result ≡ written_cells (answered told) }
{
    let told = Answer::from(told);
    let number = told.number;
    let place = told.place as u64;
    [number, place, told.bits as u64, told.count as u64]
}

// The cells of what a call made of the loss table, `told`: number and row.
fn cells_of_change(told: Result<usize, Reason>) -> [u64; 2]
    ensures { (p : Parties) → result ≡ changed_cells (answered_with p told) }
{
    match told {
        Ok(row) => [DONE, row as u64],
        Err(why) => [why.number(), 0],
    }
}

// The cells of what is shown of a row, `told`: number, and what its sender has, or nothing.
fn cells_of_showing(told: Result<Sender, Reason>) -> [u64; 6]
    ensures { result ≡ shown_cells (showing told) }
{
    match told {
        Ok(sender) => [
            DONE,
            sender.kind as u64,
            sender.first as u64,
            sender.last as u64,
            sender.received as u64,
            sender.missed,
        ],
        Err(why) => [why.number(), 0, 0, 0, 0, 0],
    }
}

// The cells of what the planner answers, `told`: number, place and the cells of the plan.
fn cells_of_planning(told: Result<Done, Failure>) -> [u64; 3]
    ensures { result ≡ planned_cells (answered told) }
{
    let told = Answer::from(told);
    [told.number, told.place as u64, told.count as u64]
}
