// Answers a batch of cases: for each record on standard input it writes what the reading program prints for what is in it.
#![tactic(auto)]

ghost use Rattle.std.specs.Prelude.{◌-◌, ◌≤◌, length, ◌≡◌, IfOk};

use programs::READ_ROOM;
use std::io;
use std::io::{Read, Write};

// How many bytes of the input were used, and by how many records.
#[derive(Clone, Copy)]
struct Progress {
    used: usize,
    records: usize,
}

// How many records a batch has at most.
const MOST_RECORDS: usize = 65536;

// The bytes of the input that are held: room for three of the longest records, so that few bytes are moved.
const HELD: usize = 262144;

// The bytes of the texts that are held until they are written: room for two of the longest.
const TEXTS: usize = 2 * READ_ROOM;

// Answers record after record.
fn main(rt: HostRuntime) -> io::Result<()> {
    let mut held = [0u8; HELD];
    let mut out = [0u8; TEXTS];
    answer_all(&mut rt.stdin(), &mut rt.stdout(), &mut held, &mut out)
}

// Answers at most MOST_RECORDS records, held in `bytes`, with their texts in `out`. A record that is cut ends the batch.
// No `for` counts them, since a turn answers as many records as are held.
fn answer_all<R: Read, W: Write>(
    input: &mut R,
    output: &mut W,
    bytes: &mut [u8],
    out: &mut [u8],
) -> io::Result<()> {
    let mut held = intake::read_full(input, bytes)?;
    let mut left = MOST_RECORDS;
    while 0 < left {
        let done = answer_held(output, &bytes[..held], left, out)?;
        if done.records == 0 {
            return Ok(());
        }
        left -= done.records;
        held = refilled(input, bytes, done.used, held)?;
    }
    Ok(())
}

// Answers the whole records of `bytes`, at most `most` of them, with their texts in `out`, writes the texts, and answers how far it came.
fn answer_held<W: Write>(
    output: &mut W,
    bytes: &[u8],
    most: usize,
    out: &mut [u8],
) -> io::Result<Progress>
    ensures { IfOk result (λ done. (done.used ≤ length bytes.now) × (done.records ≤ most)) }
{
    let mut used = 0;
    let mut put = 0;
    for records in 0..most {
        put = with_room(output, out, put)?;
        let Ok(turn) = programs::read_record(&bytes[used..], &mut out[put..]) else {
            return written(output, out, put, used, records);
        };
        used += turn.used;
        put += turn.length;
    }
    written(output, out, put, used, most)
}

// Writes the first `put` bytes of `out`, and answers that `used` bytes were used by `records` records.
fn written<W: Write>(
    output: &mut W,
    out: &[u8],
    put: usize,
    used: usize,
    records: usize,
) -> io::Result<Progress>
    requires { put ≤ length out.now }
    ensures { IfOk result (λ done. (done.used ≡ used) × (done.records ≡ records)) }
{
    output.write_all(&out[..put])?;
    Ok(Progress { used, records })
}

// Writes the first `put` bytes of `out` where the next text might have no room behind them, and answers how many are still to be written.
fn with_room<W: Write>(output: &mut W, out: &[u8], put: usize) -> io::Result<usize>
    requires { put ≤ length out.now }
    ensures { IfOk result (λ left. left ≤ put) }
{
    if out.len() - put < READ_ROOM {
        output.write_all(&out[..put])?;
        return Ok(0);
    }
    Ok(put)
}

// Moves the bytes of `bytes` that are not used yet, from `used` to `held`, to the front, reads more behind them, and answers how many are held.
fn refilled<R: Read>(input: &mut R, bytes: &mut [u8], used: usize, held: usize) -> io::Result<usize>
    requires { (used ≤ held) × (held ≤ length bytes.old) }
    ensures { IfOk result (λ n. n ≤ length bytes.new) }
{
    let kept = held - used;
    bytes.copy_within(used..held, 0);
    Ok(kept + intake::read_full(input, &mut bytes[kept..])?)
}
