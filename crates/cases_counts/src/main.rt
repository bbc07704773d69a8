// Document 01's bench cases of message counts, and cases of positions by document 02, A3: run, and compared with the stored output.
#![tactic(auto)]

use printing::{append, append_signed};
use std::io;

// The bytes of the buffer, which has room for every line that is printed.
const ROOM: usize = 2048;

// The cases of counts, an old and a new one each, in the order of their lines.
const COUNTS: [(u8, u8); 5] = [(127, 0), (5, 5), (6, 5), (128, 0), (0, 128)];

// A case of a position: the reference's latitude and longitude, the form, and the form's two numbers.
type Case = (i64, i64, i64, i64, i64);

// The cases of positions, in the order of their lines.
const POSITIONS: [Case; 57] = [
    // Four forms, each at the ends of its offsets.
    (399042000, 1164074000, 1, -2048, 2047),
    (399042000, 1164074000, 2, -8192, 8191),
    (399042000, 1164074000, 3, -32768, 32767),
    (399042000, 1164074000, 4, -131072, 131071),
    // The other two, and form seven, which replaces the reference.
    (399042000, 1164074000, 5, -2097152, 2097151),
    (399042000, 1164074000, 6, -8388608, 8388607),
    (399042000, 1164074000, 7, -1799999999, -900000000),
    // The form, the reference's latitude and longitude, and an offset, each outside by one.
    (0, 0, 8, 0, 0),
    (900000002, 0, 1, 0, 0),
    (0, -1800000000, 7, 0, 0),
    (0, 0, 1, 2048, 0),
    // To each end of the ring of longitudes, and past it by one.
    (0, 1799999999, 1, 1, 0),
    (0, 1800000000, 1, 1, 0),
    (0, -1799999998, 1, -1, 0),
    (0, -1799999999, 1, -1, 0),
    // Round the ring by the longest offsets of the other forms: in form four the sum is 1800000001, in form five one less than the lowest.
    (0, 1800000000, 2, 8191, 0),
    (0, -1799999999, 3, -32768, 0),
    (0, 1799868930, 4, 131071, 0),
    (0, -1797902848, 5, -2097152, 0),
    (0, 1800000000, 6, 8388607, 0),
    (0, -1799999999, 6, -8388608, 0),
    // To each end of the latitudes, and past it by one: to the north the sum is 900000001, which the type has.
    (899999999, 0, 1, 0, 1),
    (900000000, 0, 1, 0, 1),
    (891611394, 0, 6, 0, 8388607),
    (-899999999, 0, 1, 0, -1),
    (-900000000, 0, 1, 0, -1),
    (-891611393, 0, 6, 0, -8388608),
    // A reference whose longitude means "no information", in each form with offsets; some sums would be longitudes again.
    (0, 1800000001, 1, 0, 0),
    (0, 1800000001, 2, -1, 0),
    (0, 1800000001, 3, 1, 0),
    (0, 1800000001, 4, -131072, 0),
    (0, 1800000001, 5, 2097151, 0),
    (0, 1800000001, 6, -8388608, 8388607),
    // The same of its latitude.
    (900000001, 0, 1, 0, 0),
    (900000001, 0, 2, 0, -1),
    (900000001, 0, 3, 0, 1),
    (900000001, 0, 4, 0, -131072),
    (900000001, 0, 5, 0, 2097151),
    (900000001, 0, 6, 8388607, -8388608),
    // Form seven at the highest numbers that are coordinates; "no information" on either axis and on both; and beside it a number outside,
    // which is refused first.
    (0, 0, 7, 1800000000, 900000000),
    (0, 0, 7, 1800000001, 900000000),
    (0, 0, 7, 1800000000, 900000001),
    (0, 0, 7, 1800000001, 900000001),
    (0, 0, 7, 1800000001, 900000002),
    (0, 0, 7, 1800000002, 900000001),
    // Form seven asks of the reference only that it is no number outside.
    (900000001, 0, 7, 2, -1),
    (0, 1800000001, 7, 2, -1),
    (900000001, 1800000001, 7, -1799999999, -900000000),
    (900000001, 1800000001, 7, 2, 900000001),
    // A number outside is refused before "no information": the form, the reference's latitude and longitude, and an offset on each axis.
    (900000001, 1800000001, 0, 0, 0),
    (900000002, 1800000001, 1, 0, 0),
    (900000001, 1800000002, 1, 0, 0),
    (900000001, 1800000001, 1, 2048, 0),
    (900000001, 1800000001, 1, 0, -2049),
    // "No information" is refused before a latitude that leaves its range.
    (900000000, 1800000001, 1, 0, 1),
    (-900000000, 1800000001, 1, 0, -1),
    (900000001, 1800000001, 1, 1, 1),
];

fn main(rt: HostRuntime) -> io::Result<()> {
    let mut out = [0u8; ROOM];
    let mut end = 0;
    for (old, new) in COUNTS {
        end = count_line(old, new, &mut out, end);
    }
    for case in POSITIONS {
        end = position_line(case, &mut out, end);
    }
    if end <= ROOM {
        rt.write_all(&out[..end])?;
    }
    Ok(())
}

// A number, and a blank behind it.
fn word(number: i64, out: &mut [u8], at: usize) -> usize {
    let blank = append_signed(number, out, at);
    append(b" ", out, blank)
}

// The last number of a line.
fn last_word(number: i64, out: &mut [u8], at: usize) -> usize {
    let end = append_signed(number, out, at);
    append(b"\n", out, end)
}

// A line: the old and the new count, then the number and how many were missed.
fn count_line(old: u8, new: u8, out: &mut [u8], at: usize) -> usize {
    let (number, missed) = match loss::missed(old, new) {
        Ok(missed) => (0, missed),
        Err(why) => (why.number(), 0),
    };
    let a = word(old as i64, out, at);
    let b = word(new as i64, out, a);
    let c = word(number as i64, out, b);
    last_word(missed as i64, out, c)
}

// A line of a `case`: the form, then the number, the latitude and the longitude.
fn position_line(case: Case, out: &mut [u8], at: usize) -> usize {
    let (latitude, longitude, form, first, second) = case;
    let (number, north, east) = match position::resolve(latitude, longitude, form, first, second) {
        Ok(place) => (0, place.latitude, place.longitude),
        Err(why) => (why.number() as i64, 0, 0),
    };
    let a = word(form, out, at);
    let b = word(number, out, a);
    let c = word(north, out, b);
    last_word(east, out, c)
}
