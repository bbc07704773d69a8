// Answers a batch of sheets: for each record on standard input, an edition, a type number and the cells of a sheet, it prints the
// message or the refusal.
#![tactic(auto)]

use programs_writing::WRITTEN_ROOM;
use records::LONGEST;
use std::io;
use std::io::{Read, Write};

// How many records a batch has at most.
const MOST_RECORDS: usize = 65536;

// Answers record after record.
fn main(rt: HostRuntime) -> io::Result<()> {
    let mut input = rt.stdin();
    let mut output = rt.stdout();
    let mut record = [0u8; LONGEST];
    for _ in 0..MOST_RECORDS {
        if !write_next(&mut input, &mut output, &mut record)? {
            return Ok(());
        }
    }
    Ok(())
}

// Reads the next record into `record`, writes the text for its sheet, and answers whether another may follow.
fn write_next<R: Read, W: Write>(
    input: &mut R,
    output: &mut W,
    record: &mut [u8; LONGEST],
) -> io::Result<bool> {
    let held = intake::next_record(input, record)?;
    let mut out = [0u8; WRITTEN_ROOM];
    let Some(length) = programs_writing::write_record(&record[..held], &mut out) else {
        return Ok(false);
    };
    output.write_all(&out[..length])?;
    Ok(true)
}
