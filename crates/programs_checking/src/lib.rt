// What the rules program does with its input, on slices: everything that it decides is here.
#![tactic(auto)]

ghost use Rattle.std.specs.Prelude.{◌≡◌, List, [], ◌*◌, ◌≤◌, length, take, Err};
ghost use Rattle.answers.specs.Answers.{answered};
ghost use Rattle.basics.specs.Lists.{filled};
ghost use Rattle.bits.specs.Limits.{most_bytes, most_bits};
ghost use Rattle.types.specs.Named.{first_edition};
ghost use Rattle.printing.specs.Texts.{read_text};
ghost use Rattle.findings.specs.Found.{in_force_after};
ghost use Rattle.findings.specs.Told.{told};
ghost use Rattle.findings.specs.Lines.{longest_line};
ghost use Rattle.programs_checking.specs.Checks.{frame_outcome, judged_by, checked_record, checked_answer, counted, tally_text, check_usage};

use answers::{Answer, Failure, Reason, Refusal};
use basics::{copy_front, later, least};
pub use findings::LINE;
use findings::{Finding, find, passes, put_finding};
use printing::{append, append_decimal, append_sentence};
use programs::{MESSAGE_CELLS, MIDDLE_FRAME, SHORT_FRAME, USAGE};
use types::FIRST_EDITION;

// What a frame comes to: how many bytes its line has, whether that says that the frame passes, and how many cells the map in force has.
#[derive(Clone, Copy)]
pub struct Judged {
    pub length: usize,
    pub passes: bool,
    pub cells: usize,
}

// What is shown for a record: how many bytes its line has, whether that says that the frame passes, whether another record may follow, and how
// many cells the map in force has.
#[derive(Clone, Copy)]
pub struct Checked {
    pub length: usize,
    pub passes: bool,
    pub more: bool,
    pub cells: usize,
}

// How many records had a line, and how many of these say that the frame passes.
#[derive(Clone, Copy)]
pub struct Tally {
    pub records: usize,
    pub pass: usize,
}

impl Tally {
    // The tally with one record more, of which `checked` is shown; where that has no line, there was no record.
    pub fn with(self, checked: Checked) -> Tally
        ensures { result ≡ counted self checked }
    {
        if checked.length == 0 {
            return self;
        }
        let records = later(self.records, 1);
        if checked.passes {
            return Tally {
                records,
                pass: later(self.pass, 1),
            };
        }
        Tally {
            records,
            pass: self.pass,
        }
    }
}

// How the rules program is used: puts the text into `out`, and answers how many bytes that is.
pub fn put_check_usage(out: &mut [u8; USAGE]) -> usize
    ensures length { result ≡ length check_usage }
    ensures bytes { out.new ≡ filled check_usage out.old }
{
    append(
        b"use: knotsaffron_check < INPUT\nINPUT is records, each two bytes of length, high byte first, and a frame of so many bytes.\nA line is printed for each, and last how many there are and how many pass: docs/PROGRAMS.md says more.\n",
        out,
        0,
    )
}

// The rules program: puts the line for the frame in the first record of `held` into `out`, and answers how many bytes that is, whether it
// says that the frame passes, and whether another record may follow. A record that is cut is refused as short, at its first bit. The first
// `cells` of `map` are the map in force, none where there is no map yet; where the frame is a MAP, its cells take their place.
pub fn check_record(
    held: &[u8],
    map: &mut [i64; MESSAGE_CELLS],
    cells: usize,
    out: &mut [u8; LINE],
) -> Checked
    ensures answer { result ≡ checked_answer (take cells map.old) held.now }
    ensures bytes { out.new ≡ filled (checked_record (take cells map.old) held.now).line out.old }
    ensures map { map.new ≡ filled (checked_record (take cells map.old) held.now).map map.old }
{
    match records::first_record(held) {
        Ok(Some(record)) => {
            let line = check_message(&held[record.start..record.end], map, cells, out);
            Checked {
                length: line.length,
                passes: line.passes,
                more: true,
                cells: line.cells,
            }
        }
        Err(_) => {
            let short = Failure::Refused(Refusal::new(Reason::Short, 0));
            let length = put_refusal(short, out);
            Checked {
                length,
                passes: false,
                more: false,
                cells: in_force(map, cells),
            }
        }
        Ok(None) => Checked {
            length: 0,
            passes: false,
            more: false,
            cells: in_force(map, cells),
        },
    }
}

// The last line of the rules program: puts how many records there were and how many of them pass, by `tally`, into `out`, and answers how
// many bytes that is.
pub fn put_tally(tally: Tally, out: &mut [u8; LINE]) -> usize
    ensures length { result ≡ length (tally_text tally) }
    ensures bytes { out.new ≡ filled (tally_text tally) out.old }
{
    let words = append_decimal(tally.records as u64, out, 0);
    append_sentence(b" records, ", tally.pass, b" pass\n", out, words)
}

// Puts the line of the rules program for `frame` into `out`, and answers how many bytes that is and whether it says that the frame passes. The
// first `cells` of `map` are the map in force; where the frame is a MAP, its cells take their place.
pub fn check_message(
    frame: &[u8],
    map: &mut [i64; MESSAGE_CELLS],
    cells: usize,
    out: &mut [u8; LINE],
) -> Judged
    ensures answer { result ≡ judged_by (frame_outcome (take cells map.old) frame.now) }
    ensures bytes { out.new ≡ filled (frame_outcome (take cells map.old) frame.now).line out.old }
    ensures map { map.new ≡ filled (frame_outcome (take cells map.old) frame.now).map map.old }
{
    let held = in_force(map, cells);
    if frame.len() <= SHORT_FRAME {
        let mut sheet = [0i64; 8 * SHORT_FRAME];
        return judge(frame, &mut sheet, map, held, out);
    }
    if frame.len() <= MIDDLE_FRAME {
        let mut sheet = [0i64; 8 * MIDDLE_FRAME];
        return judge(frame, &mut sheet, map, held, out);
    }
    let mut sheet = [0i64; MESSAGE_CELLS];
    judge(frame, &mut sheet, map, held, out)
}

// Puts the line for `frame` into `out`, where `sheet` is lent for its cells: as many as a frame that is not too long has bits. The first `cells`
// of `map` are the map in force, and it has room for every frame.
fn judge(
    frame: &[u8],
    sheet: &mut [i64],
    map: &mut [i64],
    cells: usize,
    out: &mut [u8; LINE],
) -> Judged
    requires { (length frame.now ≤ most_bytes → 8 * length frame.now ≤ length sheet.old) × (length sheet.old ≤ most_bits) × (length map.old ≡ most_bits) × (cells ≤ most_bits) }
    ensures answer { result ≡ judged_by (frame_outcome (take cells map.old) frame.now) }
    ensures bytes { out.new ≡ filled (frame_outcome (take cells map.old) frame.now).line out.old }
    ensures map { map.new ≡ filled (frame_outcome (take cells map.old) frame.now).map map.old }
{
    let done = match reader::read(0, frame, sheet).answer {
        Ok(done) => done,
        Err(why) => {
            let length = put_refusal(why, out);
            return Judged {
                length,
                passes: false,
                cells,
            };
        }
    };
    let count = done.count;
    let finding = find(&sheet[..count], &map[..cells]);
    let length = put_finding(finding, out);
    let cells = keep(finding, sheet, count, map, cells);
    Judged {
        length,
        passes: passes(finding),
        cells,
    }
}

// How many cells the map in force has behind a `finding`: those of the frame, the first `count` of `sheet`, take the place of the first `cells` of
// `map` where the frame is a MAP.
fn keep(finding: Finding, sheet: &[i64], count: usize, map: &mut [i64], cells: usize) -> usize
    requires { (count ≤ length sheet.now) × (count ≤ length map.old) × (cells ≤ length map.old) }
    ensures { (result ≡ length (in_force_after (told finding) (take count sheet.now) (take cells map.old)))
        × (map.new ≡ filled (in_force_after (told finding) (take count sheet.now) (take cells map.old)) map.old) }
{
    match finding {
        Finding::Map(_) => {
            copy_front(&sheet[..count], map);
            count
        }
        Finding::Ruled(_) => in_force(map, cells),
        Finding::Profiled(_) => in_force(map, cells),
        Finding::Compared(_) => in_force(map, cells),
        Finding::NoMap => in_force(map, cells),
        Finding::NoRule => in_force(map, cells),
    }
}

// How many of the first `cells` of `map` there are.
fn in_force(map: &[i64], cells: usize) -> usize
    ensures { result ≡ length (take cells map.now) }
{
    least(cells, map.len())
}

// Puts the line of a frame that could not be read for `why` into `out`, as the reading program prints it: no cell belongs to it. Answers how many bytes it has.
fn put_refusal(why: Failure, out: &mut [u8]) -> usize
    requires { longest_line ≤ length out.old }
    ensures length { result ≡ length (read_text first_edition (answered (Err why)) []) }
    ensures bytes { out.new ≡ filled (read_text first_edition (answered (Err why)) []) out.old }
{
    match printing::print_read(FIRST_EDITION, Answer::from(Err(why)), &[], out) {
        Ok(length) => length,
        Err(_) => 0,
    }
}
