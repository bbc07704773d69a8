// Document 01's bench cases of single fields, and of a sheet and bytes without room, and fields of X.691's worked examples: run, and compared with the stored output.
#![tactic(auto)]

use answers::{Answer, Refusal};
use bits::Cursor;
use printing::{append, append_decimal, append_signed};
use std::io;
use types::names::{LIGHT_STATE, LONGITUDE, MESSAGE_FRAME, MINUTE_OF_THE_YEAR, OFFSET_LL_B12};

// The bytes of the buffer, which has room for every line that is printed.
const ROOM: usize = 2048;

fn main(rt: HostRuntime) -> io::Result<()> {
    let mut out = [0u8; ROOM];
    let minutes = print_minutes(&mut out, 0);
    let longitudes = print_longitudes(&mut out, minutes);
    let lights = print_lights(&mut out, longitudes);
    let codes = print_codes(&mut out, lights);
    let lacking = print_lacking(&mut out, codes);
    let reading = print_sheet_without_room(&mut out, lacking);
    let writing = print_bytes_without_room(&mut out, reading);
    let end = print_worked_examples(&mut out, writing);
    if end <= ROOM {
        rt.write_all(&out[..end])?;
    }
    Ok(())
}

// Puts the digits of `n` and then `text` at the place `at` of `out`, and gives the place behind them.
fn number(n: u64, text: &[u8], out: &mut [u8], at: usize) -> usize {
    let behind = append_decimal(n, out, at);
    append(text, out, behind)
}

fn value_line(value: i64, next: usize, out: &mut [u8], at: usize) -> usize {
    let a = append(b"value ", out, at);
    let b = append_signed(value, out, a);
    let c = append(b" up to bit ", out, b);
    number(next as u64, b"\n", out, c)
}

// Number and place of a refusal, its row, which is 0 where it names none, and how many bits of the field are not there.
fn refusal_line(why: Refusal, out: &mut [u8], at: usize) -> usize {
    let a = append(b"refused ", out, at);
    let b = number(why.reason.number(), b" at bit ", out, a);
    let c = number(why.place as u64, b" row ", out, b);
    let d = number(why.row as u64, b" lacking ", out, c);
    number(why.lacking as u64, b"\n", out, d)
}

// A whole number or an enumeration at the bit `from`, by its row.
fn field_from(row: usize, bytes: &[u8], from: usize, out: &mut [u8], at: usize) -> usize {
    match reader::read_field(row, bytes, Cursor { at: from }) {
        Ok((value, after)) => value_line(value, after.at, out, at),
        Err(why) => refusal_line(why, out, at),
    }
}

// One at the first bit.
fn field_line(row: usize, bytes: &[u8], out: &mut [u8], at: usize) -> usize {
    field_from(row, bytes, 0, out, at)
}

// A code at the bit `from`, by its width.
fn code_from(width: u32, bytes: &[u8], from: usize, out: &mut [u8], at: usize) -> usize {
    match reader::read_code(width, bytes, Cursor { at: from }) {
        Ok((code, after)) => {
            let a = append(b"code ", out, at);
            let b = number(code, b" up to bit ", out, a);
            number(after.at as u64, b"\n", out, b)
        }
        Err(why) => refusal_line(why, out, at),
    }
}

// One at the first bit.
fn code_line(width: u32, bytes: &[u8], out: &mut [u8], at: usize) -> usize {
    code_from(width, bytes, 0, out, at)
}

// MinuteOfTheYear and OffsetLL-B12.
fn print_minutes(out: &mut [u8], at: usize) -> usize {
    let a = field_line(MINUTE_OF_THE_YEAR, b"\x80\xac\x00", out, at);
    let b = field_line(MINUTE_OF_THE_YEAR, b"\x80\xac\x10", out, a);
    let c = field_line(OFFSET_LL_B12, b"\x00\x00", out, b);
    field_line(OFFSET_LL_B12, b"\x80\x00", out, c)
}

// Longitude.
fn print_longitudes(out: &mut [u8], at: usize) -> usize {
    let a = field_line(LONGITUDE, b"\x00\x00\x00\x00", out, at);
    let b = field_line(LONGITUDE, b"\x6b\x49\xd1\xff", out, a);
    let c = field_line(LONGITUDE, b"\xd6\x93\xa4\x00", out, b);
    field_line(LONGITUDE, b"\xd6\x93\xa4\x01", out, c)
}

// LightState, and the frame, which is no single field.
fn print_lights(out: &mut [u8], at: usize) -> usize {
    let a = field_line(LIGHT_STATE, b"\x30", out, at);
    let b = field_line(LIGHT_STATE, b"\x48", out, a);
    let c = field_line(LIGHT_STATE, b"\x80", out, b);
    field_line(MESSAGE_FRAME, b"\x30", out, c)
}

// Widths that some field has, and one that none has.
fn print_codes(out: &mut [u8], at: usize) -> usize {
    let a = code_line(20, b"\x80\xac\x00", out, at);
    let b = code_line(32, b"\x80\xac\x00", out, a);
    code_line(17, b"\x80\xac\x00", out, b)
}

// Fields that are not wholly there: of four bits of twelve, of none, from behind the last bit, and of a row.
fn print_lacking(out: &mut [u8], at: usize) -> usize {
    let a = code_from(12, b"\xff", 4, out, at);
    let b = code_from(8, b"\xff", 8, out, a);
    let c = code_from(5, b"\xff", 20, out, b);
    field_from(MINUTE_OF_THE_YEAR, b"\xff\xff", 6, out, c)
}

// Description "A" into a sheet of two cells: the number, the cells needed, and the two cells afterwards.
fn print_sheet_without_room(out: &mut [u8], at: usize) -> usize {
    let mut sheet = [7i64; 2];
    let answer = Answer::from(reader::read(1, b"\x00\x20\x80", &mut sheet).answer);
    let a = number(answer.number, b" needed ", out, at);
    let b = number(answer.count as u64, b" then ", out, a);
    let c = append_signed(sheet[0], out, b);
    let d = append(b" ", out, c);
    let e = append_signed(sheet[1], out, d);
    append(b"\n", out, e)
}

// A byte as a number of 64 bits.
fn wide(byte: u8) -> u64 {
    byte as u64
}

// Description "A" into two bytes: the number, the bytes needed, and the two bytes afterwards.
fn print_bytes_without_room(out: &mut [u8], at: usize) -> usize {
    let sheet = [0i64, 1, 65];
    let mut bytes = [7u8; 2];
    let answer = Answer::from(writer::write(types::FIRST_EDITION, 1, &sheet, &mut bytes));
    let a = number(answer.number, b" needed ", out, at);
    let b = number(answer.count as u64, b" then ", out, a);
    let c = number(wide(bytes[0]), b" ", out, b);
    number(wide(bytes[1]), b"\n", out, c)
}

// X.691, Annex A.2 (unaligned): the name "John P Smith" in sizes and characters of six bits, and the date of hire in digits of four.
fn print_worked_examples(out: &mut [u8], at: usize) -> usize {
    let a = codes_line(6, 12, b"\x0c\xba\xa3\xa5\x11\x14\xa2\x4b\xe3", out, at);
    codes_line(4, 8, b"\x19\x71\x09\x17", out, a)
}

// `count` codes of `width` bits of `bytes`, one behind the other: the cursor goes in with each call and comes back advanced.
fn codes_line(width: u32, count: u32, bytes: &[u8], out: &mut [u8], at: usize) -> usize {
    let mut cursor = Cursor { at: 0 };
    let mut end = append(b"codes", out, at);
    for _ in 0..count {
        let blank = append(b" ", out, end);
        match reader::read_code(width, bytes, cursor) {
            Ok((code, after)) => {
                end = append_decimal(code, out, blank);
                cursor = after;
            }
            Err(why) => return refusal_line(why, out, blank),
        }
    }
    append(b"\n", out, end)
}
