// What the rules program finds of a frame, by its kind: rules for an RSI, a profile for an RSM, the map in force for a SPAT; and the line that it
// prints of it.
// What each function answers is defined in specs/.
#![tactic(auto)]

ghost use Rattle.std.specs.Prelude.{◌≡◌, ◌≤◌, length};
ghost use Rattle.basics.specs.Lists.{filled};
ghost use Rattle.printing.specs.Buffers.{Appended};
ghost use Rattle.answers.specs.Reasons.{reason_number};
ghost use Rattle.rules.specs.Breaches.{told as ruling_told};
ghost use Rattle.signals.specs.Mismatches.{told as verdict_told};
ghost use Rattle.findings.specs.Told.{told};
ghost use Rattle.findings.specs.Found.{signal_found, kind_found, found, found_passes};
ghost use Rattle.findings.specs.Lines.{longest_line, twice, ruling_line, profile_line, verdict_line, found_text};

use answers::Reason;
use messages::{BSM_FRAME, MAP_FRAME, RSM_FRAME, SPAT_FRAME, framed};
use printing::{append, append_decimal, append_sentence};
use rules::Breach;
use signals::Mismatch;

// The bytes that every line fits into.
pub const LINE: usize = 128;

// What is found of a frame: what the RSI sending rules say, what the RSM sending profile says, what the map in force says of a signal message, how
// many nodes a map has, that there is no map yet for a signal message, or that there is no rule for a message of a vehicle.
#[derive(Clone, Copy, Debug, PartialEq, Eq, Hash)]
pub enum Finding {
    Ruled(Result<(), Breach>),
    Profiled(Result<(), Breach>),
    Compared(Result<(), Mismatch>),
    Map(u64),
    NoMap,
    NoRule,
}

// What is found of the frame in `sheet`, where `map` has the cells of the map in force, and none where there is none yet.
pub fn find(sheet: &[i64], map: &[i64]) -> Finding
    ensures { told result ≡ found sheet.now map.now }
{
    let rows = types::rows();
    match framed(&rows, sheet) {
        Ok(frame) => by_kind(frame.index, sheet, map),
        Err(_) => Finding::Ruled(rules::check_rsi(sheet)),
    }
}

// What is found of a frame with a message of this `kind`.
fn by_kind(kind: u64, sheet: &[i64], map: &[i64]) -> Finding
    ensures { told result ≡ kind_found kind sheet.now map.now }
{
    match kind {
        MAP_FRAME => Finding::Map(signals::nodes_in(sheet)),
        SPAT_FRAME => of_signal(sheet, map),
        RSM_FRAME => Finding::Profiled(participants::check_rsm(sheet)),
        BSM_FRAME => Finding::NoRule,
        _ => Finding::Ruled(rules::check_rsi(sheet)),
    }
}

// What is found of a signal message.
fn of_signal(sheet: &[i64], map: &[i64]) -> Finding
    ensures { told result ≡ signal_found sheet.now map.now }
{
    if map.len() == 0 {
        return Finding::NoMap;
    }
    Finding::Compared(signals::check_signal(sheet, map))
}

// Whether the line of a `finding` is `passes`.
pub fn passes(finding: Finding) -> bool
    ensures { result ≡ found_passes (told finding) }
{
    match finding {
        Finding::Ruled(checked) => checked.is_ok(),
        Finding::Profiled(checked) => checked.is_ok(),
        Finding::Compared(checked) => checked.is_ok(),
        Finding::Map(_) => false,
        Finding::NoMap => false,
        Finding::NoRule => false,
    }
}

// Puts the line of a `finding` into `out`, and answers how many bytes it has.
pub fn put_finding(finding: Finding, out: &mut [u8; LINE]) -> usize
    ensures length { result ≡ length (found_text (told finding)) }
    ensures bytes { out.new ≡ filled (found_text (told finding)) out.old }
{
    put_line(finding, out)
}

// Puts the line of a `finding` to the front of `out`, and answers the place behind it.
fn put_line(finding: Finding, out: &mut [u8]) -> usize
    ensures text { Appended (found_text (told finding)) out.old 0 result out.new }
    ensures short { length (found_text (told finding)) ≤ longest_line }
{
    match finding {
        Finding::Ruled(checked) => put_ruling(checked, out),
        Finding::Profiled(checked) => put_profile(checked, out),
        Finding::Compared(checked) => put_verdict(checked, out),
        Finding::Map(nodes) => append_sentence(b"map of ", nodes as usize, b" nodes\n", out, 0),
        Finding::NoMap => append(b"no map yet\n", out, 0),
        Finding::NoRule => append(b"no rule for BSM\n", out, 0),
    }
}

// Puts the line of what was `checked` by the RSI sending rules, one for each reason, and answers the place behind it.
fn put_ruling(checked: Result<(), Breach>, out: &mut [u8]) -> usize
    ensures text { let r = ruling_told checked in Appended (ruling_line r.number r.place) out.old 0 result out.new }
    ensures short { let r = ruling_told checked in length (ruling_line r.number r.place) ≤ longest_line }
{
    match checked {
        Ok(_) => append(b"passes\n", out, 0),
        Err(breach) => put_breach(breach.reason, breach.place, out),
    }
}

// Puts the line that says for which `reason` an `entry` breaks an RSI sending rule, and answers the place behind it.
fn put_breach(reason: Reason, entry: usize, out: &mut [u8]) -> usize
    ensures text { Appended (ruling_line (reason_number reason) entry) out.old 0 result out.new }
    ensures short { length (ruling_line (reason_number reason) entry) ≤ longest_line }
{
    match reason {
        Reason::EventPosition => append_sentence(
            b"12 event ",
            entry,
            b" has no eventPos\n",
            out,
            0,
        ),
        Reason::EventReach => append_sentence(
            b"13 event ",
            entry,
            b" has none of eventRadius, referencePaths, referenceLinks\n",
            out,
            0,
        ),
        Reason::SignPosition => append_sentence(b"14 sign ", entry, b" has no signPos\n", out, 0),
        Reason::SignDescription => append_sentence(
            b"15 sign ",
            entry,
            b" has no description\n",
            out,
            0,
        ),
        Reason::SignReach => append_sentence(
            b"16 sign ",
            entry,
            b" has neither referencePaths nor referenceLinks\n",
            out,
            0,
        ),
        _ => put_two(
            b"refused ",
            reason.number(),
            b" at cell ",
            entry as u64,
            b"\n",
            out,
        ),
    }
}

// Puts the line of what was `checked` by the RSM sending profile, one for each reason, and answers the place behind it.
fn put_profile(checked: Result<(), Breach>, out: &mut [u8]) -> usize
    ensures text { let r = ruling_told checked in Appended (profile_line r.number r.place) out.old 0 result out.new }
    ensures short { let r = ruling_told checked in length (profile_line r.number r.place) ≤ longest_line }
{
    match checked {
        Ok(_) => append(b"passes\n", out, 0),
        Err(breach) => put_lack(breach.reason, breach.place, out),
    }
}

// Puts the line that says for which `reason` an `entry` is not as the RSM sending profile asks, and answers the place behind it.
fn put_lack(reason: Reason, entry: usize, out: &mut [u8]) -> usize
    ensures text { Appended (profile_line (reason_number reason) entry) out.old 0 result out.new }
    ensures short { length (profile_line (reason_number reason) entry) ≤ longest_line }
{
    match reason {
        Reason::RepeatedId => append_sentence(
            b"23 participant ",
            entry,
            b" repeats an earlier ptcId\n",
            out,
            0,
        ),
        Reason::UnitMissing => append(b"24 no participant has ptcId 0\n", out, 0),
        Reason::FieldMissing => append_sentence(
            b"30 participant ",
            entry,
            b" has no vehicleClass\n",
            out,
            0,
        ),
        _ => put_two(
            b"refused ",
            reason.number(),
            b" at cell ",
            entry as u64,
            b"\n",
            out,
        ),
    }
}

// Puts the line of what was `checked` of a signal message, one for each reason, and answers the place behind it.
fn put_verdict(checked: Result<(), Mismatch>, out: &mut [u8]) -> usize
    ensures text { let v = verdict_told checked in Appended (verdict_line v.number v.node v.phase) out.old 0 result out.new }
    ensures short { let v = verdict_told checked in length (verdict_line v.number v.node v.phase) ≤ longest_line }
{
    match checked {
        Ok(_) => append(b"passes\n", out, 0),
        Err(why) => put_mismatch(why.reason, why.node, why.phase, out),
    }
}

// Puts the line that says for which `reason` a signal message fails, at this `node` or entry and with this `phase`, and answers the place behind it.
fn put_mismatch(reason: Reason, node: usize, phase: u64, out: &mut [u8]) -> usize
    ensures text { Appended (verdict_line (reason_number reason) node phase) out.old 0 result out.new }
    ensures short { length (verdict_line (reason_number reason) node phase) ≤ longest_line }
{
    match reason {
        Reason::RepeatedSignal => append_sentence(
            b"51 entry ",
            node,
            b" repeats an earlier one\n",
            out,
            0,
        ),
        Reason::PhaseNotListed => put_two(
            b"52 node ",
            node as u64,
            b" uses phase ",
            phase,
            b", which is not listed\n",
            out,
        ),
        _ => put_two(
            b"refused ",
            reason.number(),
            b" at cell ",
            node as u64,
            b"\n",
            out,
        ),
    }
}

// Puts the words `first`, `middle` and `last` with the numbers `n` and `m` between them to the front of `out`, and answers the place behind.
fn put_two(first: &[u8], n: u64, middle: &[u8], m: u64, last: &[u8], out: &mut [u8]) -> usize
    ensures { Appended (twice first.now n middle.now m last.now) out.old 0 result out.new }
{
    let words = append_sentence(first, n as usize, middle, out, 0);
    let number = append_decimal(m, out, words);
    append(last, out, number)
}
