// What the losses program does with its input, on slices: everything that it decides is here.
#![tactic(auto)]

ghost use Rattle.std.specs.Prelude.{◌≡◌, ◌*◌, ◌≤◌, length, Err};
ghost use Rattle.answers.specs.Answers.{answered};
ghost use Rattle.basics.specs.Lists.{filled};
ghost use Rattle.bits.specs.Limits.{most_bytes};
ghost use Rattle.printing.specs.Buffers.{Appended};
ghost use Rattle.programs_losses.specs.Lines.{longest_line, labelled, unread_line, uncounted_line, kind_word, counts_text, sender_line};
ghost use Rattle.programs_losses.specs.Drives.{line_of, stepped, told_of, step_of, told_with, frame_line, row_line, total_line, no_records, losses_usage};

use answers::{Answer, Failure, Reason, Refusal};
use basics::later;
use parties::Parties;
use printing::{append, append_decimal, append_hexadecimal};
use programs::{MESSAGE_CELLS, MIDDLE_FRAME, SHORT_FRAME, USAGE};
use senders::Sender;

// The bytes that every line of the losses program fits into.
pub const LINE: usize = 128;

// The kinds of message by the frame's index; the third that has a sender is RSI.
const BSM: u16 = 0;

const RSM: u16 = 2;

// The program's number among the parties of the loss table.
const LOGGER: u64 = 0;

// What a record adds to the output, and what may come behind it: how many bytes its line has, and whether another record may follow. A line has
// both, so that the flag decides nothing about the number beside it.
#[derive(Clone, Copy)]
pub struct Taken {
    pub length: usize,
    pub more: bool,
}

// What is known after the records so far: the loss table, how many records there were, and how many frames were counted.
#[derive(Clone, Copy)]
pub struct Drive {
    pub table: Parties,
    pub records: usize,
    pub counted: usize,
}

impl Drive {
    // A drive before its first record.
    pub fn new() -> Self
        ensures { result ≡ no_records }
    {
        Drive {
            table: Parties::new(),
            records: 0,
            counted: 0,
        }
    }

    // Takes the frame in the first record of `held` in, puts its line into `out`, and answers how many bytes the line has, and whether another
    // record may follow. A record that is cut is refused as short, at its first bit.
    pub fn take_record(&mut self, held: &[u8], out: &mut [u8; LINE]) -> Taken
        ensures answer { step_of self.new result ≡ stepped self.old held.now }
        ensures bytes { out.new ≡ filled (line_of self.old held.now) out.old }
    {
        match records::first_record(held) {
            Ok(Some(record)) => {
                let length = self.take_frame(&held[record.start..record.end], out);
                Taken { length, more: true }
            }
            Err(_) => {
                let short = Failure::Refused(Refusal::new(Reason::Short, 0));
                let length = put_unread(self.records, short, out);
                self.records = later(self.records, 1);
                Taken {
                    length,
                    more: false,
                }
            }
            Ok(None) => Taken {
                length: 0,
                more: false,
            },
        }
    }

    // Puts the line of a `row`, which has none where the row holds no sender, into `out`, and answers how many bytes that is.
    pub fn put_row(&self, row: u64, out: &mut [u8; LINE]) -> usize
        ensures length { result ≡ length (row_line self.now row) }
        ensures bytes { out.new ≡ filled (row_line self.now row) out.old }
    {
        match self.table.show(LOGGER, row) {
            Ok(sender) => put_sender(row, sender, out),
            Err(_) => 0,
        }
    }

    // The last line: puts how many records there were and how many frames were counted into `out`, and answers how many bytes that is.
    pub fn put_total(&self, out: &mut [u8; LINE]) -> usize
        ensures length { result ≡ length (total_line self.now) }
        ensures bytes { out.new ≡ filled (total_line self.now) out.old }
    {
        let Drive {
            records,
            counted,
            ..
        } = *self;
        let words = append_decimal(records as u64, out, 0);
        let last = put_labelled(b" records, ", counted as u64, out, words);
        append(b" counted\n", out, last)
    }

    // Takes `frame` in, puts its line into `out`, and answers how many bytes the line has.
    fn take_frame(&mut self, frame: &[u8], out: &mut [u8]) -> usize
        requires { longest_line ≤ length out.old }
        ensures answer { told_with self.new result ≡ told_of self.old frame.now }
        ensures bytes { out.new ≡ filled (frame_line self.old.records self.old.table frame.now) out.old }
    {
        if frame.len() <= SHORT_FRAME {
            let mut sheet = [0i64; 8 * SHORT_FRAME];
            return self.read_frame(frame, &mut sheet, out);
        }
        if frame.len() <= MIDDLE_FRAME {
            let mut sheet = [0i64; 8 * MIDDLE_FRAME];
            return self.read_frame(frame, &mut sheet, out);
        }
        let mut sheet = [0i64; MESSAGE_CELLS];
        self.read_frame(frame, &mut sheet, out)
    }

    // Takes `frame` in, where `sheet` is lent for its cells: as many as a frame that is not too long has bits. Puts its line into `out`, and
    // answers how many bytes the line has.
    fn read_frame(&mut self, frame: &[u8], sheet: &mut [i64], out: &mut [u8]) -> usize
        requires { (longest_line ≤ length out.old) × (length frame.now ≤ most_bytes → 8 * length frame.now ≤ length sheet.old) }
        ensures answer { told_with self.new result ≡ told_of self.old frame.now }
        ensures bytes { out.new ≡ filled (frame_line self.old.records self.old.table frame.now) out.old }
    {
        let answer = reader::read(0, frame, sheet).answer;
        let record = self.records;
        self.records = later(record, 1);
        let done = match answer {
            Ok(done) => done,
            Err(why) => return put_unread(record, why, out),
        };
        let origin = origins::origin_in(&sheet[..done.count]);
        let told = self
            .table
            .report(LOGGER, origin.kind, origin.id, origin.count);
        match told {
            Ok(_) => {
                self.counted = later(self.counted, 1);
                0
            }
            Err(why) => put_uncounted(record, why.number(), out),
        }
    }
}

// How the losses program is used: puts the text into `out`, and answers how many bytes that is.
pub fn put_losses_usage(out: &mut [u8; USAGE]) -> usize
    ensures length { result ≡ length losses_usage }
    ensures bytes { out.new ≡ filled losses_usage out.old }
{
    append(
        b"use: knotsaffron_losses < INPUT\nINPUT is records, each two bytes of length, high byte first, and a frame of so many bytes.\nPrinted are the frames not counted, what each sender's counts say, and totals: docs/PROGRAMS.md says more.\n",
        out,
        0,
    )
}

// Puts `words` and the digits of `n` into `out` at the place `at`, and answers the next place.
fn put_labelled(words: &[u8], n: u64, out: &mut [u8], at: usize) -> usize
    ensures { Appended (labelled words.now n) out.old at result out.new }
{
    let digits = append(words, out, at);
    append_decimal(n, out, digits)
}

// Puts the line of the record `at`, whose frame could not be read for `why`, into `out`, and answers how many bytes that is.
fn put_unread(at: usize, why: Failure, out: &mut [u8]) -> usize
    requires { longest_line ≤ length out.old }
    ensures length { result ≡ length (unread_line at (answered (Err why))) }
    ensures bytes { out.new ≡ filled (unread_line at (answered (Err why))) out.old }
{
    let answer = Answer::from(Err(why));
    let number = put_labelled(b"record ", at as u64, out, 0);
    let place = put_labelled(b" refused ", answer.number, out, number);
    let end = put_labelled(b" at bit ", answer.place as u64, out, place);
    append(b"\n", out, end)
}

// Puts the line of the record `at`, whose frame the table refused with `number`, into `out`, and answers how many bytes that is.
fn put_uncounted(at: usize, number: u64, out: &mut [u8]) -> usize
    requires { longest_line ≤ length out.old }
    ensures length { result ≡ length (uncounted_line at number) }
    ensures bytes { out.new ≡ filled (uncounted_line at number) out.old }
{
    let place = put_labelled(b"record ", at as u64, out, 0);
    let end = put_labelled(b" refused ", number, out, place);
    append(b"\n", out, end)
}

// Puts the line of `sender`, which stands in `row`, into `out`, and answers how many bytes that is.
fn put_sender(row: u64, sender: Sender, out: &mut [u8]) -> usize
    requires { longest_line ≤ length out.old }
    ensures length { result ≡ length (sender_line row sender) }
    ensures bytes { out.new ≡ filled (sender_line row sender) out.old }
{
    let kind = put_labelled(b"row ", row, out, 0);
    let id = append(kind_word(sender.kind), out, kind);
    let bytes = sender.id;
    let counts = append_hexadecimal(&bytes, 8, out, id);
    put_counts(sender, out, counts)
}

// The word for a `kind` of message.
#[tactic(auto, unfolding(crate::specs::Lines::kind_word, printing::specs::Texts::ascii))]
fn kind_word(kind: u16) -> &'static [u8; 5]
    ensures { result.now ≡ kind_word kind }
{
    match kind {
        BSM => b" BSM ",
        RSM => b" RSM ",
        _ => b" RSI ",
    }
}

// Puts the numbers of `sender` into `out` at the place `at`, and answers the next place.
fn put_counts(sender: Sender, out: &mut [u8], at: usize) -> usize
    ensures { Appended (counts_text sender) out.old at result out.new }
{
    let last = put_labelled(b" first ", sender.first as u64, out, at);
    let received = put_labelled(b" last ", sender.last as u64, out, last);
    let missed = put_labelled(b" received ", sender.received as u64, out, received);
    let end = put_labelled(b" missed ", sender.missed, out, missed);
    append(b"\n", out, end)
}
