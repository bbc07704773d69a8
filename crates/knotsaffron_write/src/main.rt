// The writing program: a sheet as text on standard input, the message in hexadecimal or the refusal on standard output.
#![tactic(auto)]

use programs::USAGE;
use programs_writing::{WRITE_INPUT, WRITTEN_ROOM};
use std::env::Env;
use std::io;
use std::io::{Read, Write};

// With an argument the program only says how it is used.
fn main(rt: HostRuntime) -> io::Result<()> {
    if intake::is_given(rt.arg(1, &mut [])) {
        show_usage(&mut rt.stdout())
    } else {
        answer(&mut rt.stdin(), &mut rt.stdout())
    }
}

// Reads the text, as far as it is needed, and writes what is printed for it.
fn answer<R: Read, W: Write>(input: &mut R, output: &mut W) -> io::Result<()> {
    let mut held = [0u8; WRITE_INPUT];
    let n = intake::read_full(input, &mut held)?;
    let mut out = [0u8; WRITTEN_ROOM];
    let length = programs_writing::write_program(&held[..n], &mut out);
    output.write_all(&out[..length])
}

// Writes to `output` how the program is used. Each program has its own: one for all would have to ask of the
// closure that puts the text that it stays within the buffer, and a function that crates share asks no such thing.
fn show_usage<W: Write>(output: &mut W) -> io::Result<()> {
    let mut out = [0u8; USAGE];
    let length = programs_writing::put_write_usage(&mut out);
    output.write_all(&out[..length])
}
