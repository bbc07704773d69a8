// The rules program: frames on standard input, each behind two bytes of length, and on standard output a line for each and last how many pass. The
// last map among them is kept for the signal messages behind it.
#![tactic(auto)]

use programs::{MESSAGE_CELLS, USAGE};
use programs_checking::{Checked, LINE, Tally};
use records::LONGEST;
use std::env::Env;
use std::io;
use std::io::{Read, Write};

// A loop has to end, so the records are counted; no input has as many as this.
const MOST_RECORDS: u64 = 18446744073709551615;

// With an argument the program only says how it is used.
fn main(rt: HostRuntime) -> io::Result<()> {
    if intake::is_given(rt.arg(1, &mut [])) {
        show_usage(&mut rt.stdout())
    } else {
        check_input(&mut rt.stdin(), &mut rt.stdout())
    }
}

// Writes the line of each record and then the last line.
fn check_input<R: Read, W: Write>(input: &mut R, output: &mut W) -> io::Result<()> {
    let mut record = [0u8; LONGEST];
    let mut map = [0i64; MESSAGE_CELLS];
    let tally = check_all(input, output, &mut record, &mut map)?;
    let mut out = [0u8; LINE];
    let length = programs_checking::put_tally(tally, &mut out);
    output.write_all(&out[..length])
}

// Answers record after record, each held in `record`, with the map in force in `map`, and answers how many there were and how many pass.
fn check_all<R: Read, W: Write>(
    input: &mut R,
    output: &mut W,
    record: &mut [u8; LONGEST],
    map: &mut [i64; MESSAGE_CELLS],
) -> io::Result<Tally> {
    let mut tally = Tally {
        records: 0,
        pass: 0,
    };
    let mut cells = 0;
    for _ in 0..MOST_RECORDS {
        let checked = check_next(input, output, record, map, cells)?;
        tally = tally.with(checked);
        cells = checked.cells;
        if !checked.more {
            return Ok(tally);
        }
    }
    Ok(tally)
}

// Reads the next record into `record`, writes its line, and answers what is shown for it. The first `cells` of `map` are the map in force.
fn check_next<R: Read, W: Write>(
    input: &mut R,
    output: &mut W,
    record: &mut [u8; LONGEST],
    map: &mut [i64; MESSAGE_CELLS],
    cells: usize,
) -> io::Result<Checked> {
    let held = intake::next_record(input, record)?;
    let mut out = [0u8; LINE];
    let checked = programs_checking::check_record(&record[..held], map, cells, &mut out);
    let length = checked.length;
    output.write_all(&out[..length])?;
    Ok(checked)
}

// Writes to `output` how the program is used. Each program has its own: one for all would have to ask of the
// closure that puts the text that it stays within the buffer, and a function that crates share asks no such thing.
fn show_usage<W: Write>(output: &mut W) -> io::Result<()> {
    let mut out = [0u8; USAGE];
    let length = programs_checking::put_check_usage(&mut out);
    output.write_all(&out[..length])
}
