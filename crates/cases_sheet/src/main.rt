// Goes through frames by the crate `sheet`: for each record on standard input, two bytes of length and a frame, it prints the nodes of a
// map with their links, movements, lanes and connections, or the participants of an RSM, a line each; else the frame's number and place.
#![tactic(auto)]

ghost use Rattle.std.specs.Prelude.{◌≤◌, ◌<◌};

use answers::{Answer, Refusal};
use messages::behind;
use printing::{append, append_decimal};
use sheet::{Listing, Part, chosen, component, entries, value};
use std::io;
use std::io::Write;
use types::names::MESSAGE_FRAME;

// Alternatives of MessageFrame (source 000, 5.2.1): mapFrame, rsmFrame.
const MAP_FRAME: u64 = 1;

const RSM_FRAME: u64 = 2;

// Components of MapData (5.2.2.2) and of RoadsideSafetyMessage (5.2.2.4): nodes, participants.
const NODES: usize = 2;

const PARTICIPANTS: usize = 3;

// Components of Node (5.2.3.20): id, inLinks; and of NodeReferenceID (5.2.3.22): region, id.
const NODE_ID: usize = 1;

const IN_LINKS: usize = 3;

const REGION: usize = 0;

const ID: usize = 1;

// Components of Link (5.2.3.15): movements, lanes; of Movement (5.2.3.18): phaseId.
const MOVEMENTS: usize = 5;

const LANES: usize = 6;

const MOVEMENT_PHASE: usize = 1;

// Components of Lane (5.2.3.11): laneID, connectsTo; of Connection (5.2.3.4): phaseId.
const LANE_ID: usize = 0;

const CONNECTS_TO: usize = 4;

const CONNECTION_PHASE: usize = 2;

// A component of ParticipantData (5.2.3.23): ptcId.
const PARTICIPANT_ID: usize = 1;

// As many cells as the longest message has bits.
const CELLS: usize = 16384;

// The bytes of the input that are held, and of the text for a frame.
const INPUT: usize = 65536;

const TEXT: usize = 262144;

// How many records a batch has at most.
const MOST_RECORDS: usize = 65536;

fn main(rt: HostRuntime) -> io::Result<()> {
    let mut input = [0u8; INPUT];
    let mut out = [0u8; TEXT];
    let held = intake::read_full(&mut rt.stdin(), &mut input)?;
    answer_all(&mut rt.stdout(), &input[..held], &mut out)
}

// Answers the whole records of `input`, at most `MOST_RECORDS`.
fn answer_all<W: Write>(output: &mut W, input: &[u8], out: &mut [u8]) -> io::Result<()> {
    let rows = types::rows();
    let mut used = 0;
    for _ in 0..MOST_RECORDS {
        let Ok(Some(record)) = records::first_record(&input[used..]) else {
            return Ok(());
        };
        answer(
            output,
            &rows,
            &input[used + record.start..used + record.end],
            out,
        )?;
        used += record.end;
    }
    Ok(())
}

// Prints what stands in `frame`, and writes it where `out` has room for it.
fn answer<W: Write>(output: &mut W, rows: &[u32], frame: &[u8], out: &mut [u8]) -> io::Result<()> {
    let end = print_frame(rows, frame, out);
    if end <= out.len() {
        output.write_all(&out[..end])?;
    }
    Ok(())
}

// Prints what stands in `frame` into `out`, and gives the length of the text.
fn print_frame(rows: &[u32], frame: &[u8], out: &mut [u8]) -> usize {
    let mut text = Text { out, length: 0 };
    let mut cells = [0i64; CELLS];
    let answer = reader::read(0, frame, &mut cells).answer;
    let Ok(done) = answer else {
        let told = Answer::from(answer);
        text.refused(told.number, told.place);
        return text.length;
    };
    if done.count <= cells.len() {
        let sheet = Sheet {
            rows,
            cells: &cells[..done.count],
        };
        print_message(sheet, &mut text);
    }
    text.length
}

// A text that is made in `out`: it has `length` bytes, of which `out` holds those that it has room for.
#[derive(Drop)]
struct Text<'a> {
    out: &'a mut [u8],
    length: usize,
}

impl Text<'_> {
    // Puts `words` behind the text.
    fn put(&mut self, words: &[u8]) {
        self.length = append(words, self.out, self.length);
    }

    // Puts the decimal number `n` behind the text.
    fn put_number(&mut self, n: u64) {
        self.length = append_decimal(n, self.out, self.length);
    }

    // Puts `name` and the number `n` as a line behind the text.
    fn line(&mut self, name: &[u8], n: u64) {
        self.put(name);
        self.put_number(n);
        self.put(b"\n");
    }

    // Puts the number and the place of `why` as a line behind the text.
    fn refusal(&mut self, why: Refusal) {
        self.refused(why.reason.number(), why.place);
    }

    // Puts the `number` and the `place` of a refusal as a line behind the text.
    fn refused(&mut self, number: u64, place: usize) {
        self.put(b"refused ");
        self.put_number(number);
        self.line(b" at ", place as u64);
    }
}

// A sheet with the table of its types.
#[derive(Clone, Copy)]
struct Sheet<'a> {
    rows: &'a [u32],
    cells: &'a [i64],
}

impl Sheet<'_> {
    // What stands for component `k` of the sequence `of`.
    fn component(self, of: Part, k: usize) -> Result<Option<Part>, Refusal> {
        component(self.rows, of.row, k, self.cells, of.place)
    }

    // The entries of component `k`, which is a list, of the sequence `of`; none where it is absent. `messages::entries_of` has none where
    // no such list stands there, which is told here.
    fn list(self, of: Part, k: usize) -> Result<Listing, Refusal> {
        match self.component(of, k)? {
            Some(list) => entries(self.rows, list.row, self.cells, list.place),
            None => Ok(Listing {
                count: 0,
                row: 0,
                place: 0,
            }),
        }
    }
}

// Prints the message in the frame that is all of `sheet`.
fn print_message(sheet: Sheet, text: &mut Text) {
    match chosen(sheet.rows, MESSAGE_FRAME, sheet.cells, 0) {
        Ok(message) => {
            let of = Part {
                row: message.row,
                place: message.place,
            };
            match message.index {
                MAP_FRAME => print_list(sheet, sheet.list(of, NODES), text, print_node),
                RSM_FRAME => print_list(
                    sheet,
                    sheet.list(of, PARTICIPANTS),
                    text,
                    print_participant,
                ),
                index => text.line(b"message ", index),
            }
        }
        Err(why) => text.refusal(why),
    }
}

// Prints each entry of `list` by `print`, which is given the entry and its number.
fn print_list<F: Fn(Sheet, Part, u64, &mut Text)>(
    sheet: Sheet,
    list: Result<Listing, Refusal>,
    text: &mut Text,
    print: F,
)
    requires { F.IsAlwaysCallable print }
{
    match list {
        Ok(list) => {
            let mut place = list.place;
            for i in 0..list.count {
                print(
                    sheet,
                    Part {
                        row: list.row,
                        place,
                    },
                    i,
                    text,
                );
                place = behind(sheet.rows, list.row, sheet.cells, place);
            }
        }
        Err(why) => text.refusal(why),
    }
}

// Prints `name` and component `k`, a whole number, of the sequence `of`; nothing where it is absent.
fn print_number(sheet: Sheet, of: Part, k: usize, name: &[u8], text: &mut Text) {
    match sheet.component(of, k) {
        Ok(Some(part)) => {
            text.put(name);
            text.put_number(value(sheet.cells, part.place));
        }
        Ok(None) => {}
        Err(why) => text.refusal(why),
    }
}

// Prints the entry `of`, of which one number is printed where it is there: the name `entry`, its own number `i`, and then `name` and
// component `k`.
fn print_entry(
    sheet: Sheet,
    of: Part,
    entry: &[u8],
    i: u64,
    name: &[u8],
    k: usize,
    text: &mut Text,
) {
    text.put(entry);
    text.put_number(i);
    print_number(sheet, of, k, name, text);
    text.put(b"\n");
}

// Prints node `i` of a map: its region where it has one, its id, and its incoming links.
fn print_node(sheet: Sheet, node: Part, i: u64, text: &mut Text) {
    text.put(b"node ");
    text.put_number(i);
    match sheet.component(node, NODE_ID) {
        Ok(Some(reference)) => {
            print_number(sheet, reference, REGION, b" region ", text);
            print_number(sheet, reference, ID, b" id ", text);
        }
        Ok(None) => {}
        Err(why) => text.refusal(why),
    }
    text.put(b"\n");
    print_list(sheet, sheet.list(node, IN_LINKS), text, print_link);
}

// Prints incoming link `i` of a node: its movements and its lanes.
fn print_link(sheet: Sheet, link: Part, i: u64, text: &mut Text) {
    text.line(b"link ", i);
    print_list(sheet, sheet.list(link, MOVEMENTS), text, print_movement);
    print_list(sheet, sheet.list(link, LANES), text, print_lane);
}

// Prints movement `i` of a link with its phase.
fn print_movement(sheet: Sheet, movement: Part, i: u64, text: &mut Text) {
    print_entry(
        sheet,
        movement,
        b"movement ",
        i,
        b" phase ",
        MOVEMENT_PHASE,
        text,
    );
}

// Prints lane `i` of a link with its id and its connections.
fn print_lane(sheet: Sheet, lane: Part, i: u64, text: &mut Text) {
    print_entry(sheet, lane, b"lane ", i, b" id ", LANE_ID, text);
    print_list(sheet, sheet.list(lane, CONNECTS_TO), text, print_connection);
}

// Prints connection `i` of a lane with its phase.
fn print_connection(sheet: Sheet, connection: Part, i: u64, text: &mut Text) {
    print_entry(
        sheet,
        connection,
        b"connection ",
        i,
        b" phase ",
        CONNECTION_PHASE,
        text,
    );
}

// Prints participant `i` of an RSM with its id.
fn print_participant(sheet: Sheet, participant: Part, i: u64, text: &mut Text) {
    print_entry(
        sheet,
        participant,
        b"participant ",
        i,
        b" ptcId ",
        PARTICIPANT_ID,
        text,
    );
}
