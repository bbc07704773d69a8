// The losses program: frames on standard input, each behind two bytes of length; on standard output a line for each frame that is not counted,
// then the rows of the loss table that are held, and last how many frames were counted.
#![tactic(auto)]

use programs::USAGE;
use programs_losses::{Drive, LINE};
use records::LONGEST;
use std::env::Env;
use std::io;
use std::io::{Read, Write};

// A loop has to end, so the records are counted; no input has as many as this.
const MOST_RECORDS: u64 = 18446744073709551615;

// The rows that the program has in the loss table.
const ROWS: u64 = 32;

// With an argument the program only says how it is used.
fn main(rt: HostRuntime) -> io::Result<()> {
    if intake::is_given(rt.arg(1, &mut [])) {
        show_usage(&mut rt.stdout())
    } else {
        take_input(&mut rt.stdin(), &mut rt.stdout())
    }
}

// Takes all records of `input`, and then writes the rows that are held and the last line to `output`.
fn take_input<R: Read, W: Write>(input: &mut R, output: &mut W) -> io::Result<()> {
    let mut record = [0u8; LONGEST];
    let drive = take_all(input, output, &mut record)?;
    show_rows(&drive, output)?;
    let mut out = [0u8; LINE];
    let length = drive.put_total(&mut out);
    output.write_all(&out[..length])
}

// Takes record after record of `input`, each held in `record`, writes their lines to `output`, and answers what is known after them.
fn take_all<R: Read, W: Write>(
    input: &mut R,
    output: &mut W,
    record: &mut [u8; LONGEST],
) -> io::Result<Drive> {
    let mut drive = Drive::new();
    for _ in 0..MOST_RECORDS {
        if !take_next(input, output, &mut drive, record)? {
            break;
        }
    }
    Ok(drive)
}

// Reads the next record of `input` into `record`, takes it into `drive`, writes its line to `output`, and answers whether another may follow.
fn take_next<R: Read, W: Write>(
    input: &mut R,
    output: &mut W,
    drive: &mut Drive,
    record: &mut [u8; LONGEST],
) -> io::Result<bool> {
    let held = intake::next_record(input, record)?;
    let mut out = [0u8; LINE];
    let taken = drive.take_record(&record[..held], &mut out);
    output.write_all(&out[..taken.length])?;
    Ok(taken.more)
}

// Writes the line of each row of the table of `drive` that holds a sender to `output`, in row order.
fn show_rows<W: Write>(drive: &Drive, output: &mut W) -> io::Result<()> {
    for row in 0..ROWS {
        show_row(drive, row, output)?;
    }
    Ok(())
}

// Writes the line of a `row` of the table of `drive` to `output`.
fn show_row<W: Write>(drive: &Drive, row: u64, output: &mut W) -> io::Result<()> {
    let mut out = [0u8; LINE];
    let length = drive.put_row(row, &mut out);
    output.write_all(&out[..length])
}

// Writes to `output` how the program is used. Each program has its own: one for all would have to ask of the
// closure that puts the text that it stays within the buffer, and a function that crates share asks no such thing.
fn show_usage<W: Write>(output: &mut W) -> io::Result<()> {
    let mut out = [0u8; USAGE];
    let length = programs_losses::put_losses_usage(&mut out);
    output.write_all(&out[..length])
}
