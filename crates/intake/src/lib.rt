// What every program takes in: the bytes of its input, as far as they go, record by record too, and whether it was given
// an argument.
#![tactic(auto)]

ghost use Rattle.std.specs.Prelude.{◌≡◌, ◌<◌, ◌≤◌, length, take, IfOk};
ghost use Rattle.std.specs.Io.{ReadsAtMost};
ghost use Rattle.std.specs.Io.KnownBytes.{Consumes, IsAtEnd};
ghost use Rattle.records.specs.Records.{longest_record, head_bytes, record_length};
ghost use Rattle.intake.specs.Arguments.{given_by};

use records::{HEAD, LONGEST};
use std::env::FillError;
use std::io;
use std::io::Read;

// Reads into `buf` until it is full or the input ends, and answers how many bytes were read; they are the first of `buf`.
pub fn read_full<R: Read>(input: &mut R, buf: &mut [u8]) -> io::Result<usize>
    ensures bound { ReadsAtMost result buf.new }
    ensures bytes { IfOk result (λ n. Consumes (R.remaining input.old) (R.remaining input.new) (take n buf.new)) }
    ensures end { IfOk result (λ n. n < length buf.new → IsAtEnd (R.remaining input.new)) }
{
    let mut done = 0;
    while done < buf.len() {
        let n = input.read(&mut buf[done..])?;
        if n == 0 {
            break;
        }
        done += n;
    }
    Ok(done)
}

// Whether there is an argument, by what the environment answered where it was asked for one with no room for its bytes; it need be no text.
pub fn is_given(asked: Result<usize, FillError>) -> bool
    ensures { result ≡ given_by asked }
{
    match asked {
        Ok(_) => true,
        Err(FillError::TooLong) => true,
        Err(FillError::NotPresent) => false,
    }
}

// Reads the next record into `record`, and answers how many bytes of it there are, with those of its length; they are the first of `record`, and
// fewer than its length asks for only where the input ends.
#[tactic(auto, unfolding(records::specs::Records::asked))]
pub fn next_record<R: Read>(input: &mut R, record: &mut [u8; LONGEST]) -> io::Result<usize>
    ensures bound { IfOk result (λ held. held ≤ longest_record) }
    ensures bytes { IfOk result (λ held. Consumes (R.remaining input.old) (R.remaining input.new) (take held «record».new)) }
    ensures end { IfOk result (λ held. held < head_bytes → IsAtEnd (R.remaining input.new)) }
    ensures asked { IfOk result (λ held. held ≤ record_length (take held «record».new)) }
    ensures whole { IfOk result (λ held. held < record_length (take held «record».new) → IsAtEnd (R.remaining input.new)) }
{
    let held = read_full(input, &mut record[..HEAD])?;
    let Ok(Some(bytes)) = records::head_of(&record[..held]) else {
        return Ok(held);
    };
    Ok(held + read_full(input, &mut record[HEAD..HEAD + bytes])?)
}
