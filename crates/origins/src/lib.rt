// Who sent a frame: the kind of message, the sender's id and the message count, from a sheet of type 0.
// What each function answers is defined in specs/.
#![tactic(auto)]

ghost use Rattle.std.specs.Prelude.{◌≡◌};
ghost use Rattle.origins.specs.Frame.{id_at, unsent, origin_in};
ghost use Rattle.origins.specs.Octets.{octet_at, eight_at};

use basics::later;
use messages::{BSM_FRAME, NO_FRAME, RSI_FRAME, RSM_FRAME, entries_of, framed, number_of};
use passing::value;

// The first component of each message.
const MSG_CNT: usize = 0;

// The component id of BasicSafetyMessage (5.2.2.1), of RoadsideSafetyMessage (5.2.2.4), and of RoadSideInformation (5.2.2.3), behind moy.
const BSM_ID: usize = 1;

const RSM_ID: usize = 1;

const RSI_ID: usize = 2;

// An octet has fewer values than this.
const OCTETS: u64 = 256;

// The kind of message by the frame's index, with the sender's id and the message count, which are 0 where the message has no id.
#[derive(Clone, Copy)]
pub struct Origin {
    pub kind: u64,
    pub id: [u8; 8],
    pub count: u8,
}

// Who sent the frame of which `sheet` has the cells. A sheet that is no frame has a kind that no frame has.
pub fn origin_in(sheet: &[i64]) -> Origin
    ensures { result ≡ origin_in sheet.now }
{
    let rows = types::rows();
    let Ok(frame) = framed(&rows, sheet) else {
        return unsent(NO_FRAME);
    };
    let at = id_component(frame.index);
    if at == 0 {
        return unsent(frame.index);
    }
    let id = entries_of(&rows, frame.row, at, sheet, frame.place);
    let count = number_of(&rows, frame.row, MSG_CNT, sheet, frame.place);
    Origin {
        kind: frame.index,
        id: octets(sheet, id.place),
        count: (count % OCTETS) as u8,
    }
}

// The origin of a frame of this `kind` that has no sender's id.
fn unsent(kind: u64) -> Origin
    ensures { result ≡ Rattle.origins.specs.Frame.unsent kind }
{
    Origin {
        kind,
        id: [0; 8],
        count: 0,
    }
}

// Which component of a message of this `kind` is the sender's id; 0 where it has none.
fn id_component(kind: u64) -> usize
    ensures { result ≡ id_at kind }
{
    match kind {
        BSM_FRAME => BSM_ID,
        RSM_FRAME => RSM_ID,
        RSI_FRAME => RSI_ID,
        _ => 0,
    }
}

// The octets in the eight cells from `place` on.
fn octets(sheet: &[i64], place: usize) -> [u8; 8]
    ensures { result ≡ eight_at sheet.now place }
{
    let mut id = [0; 8];
    for (i, byte) in id.iter_mut().enumerate() {
        *byte = octet(sheet, place, i);
    }
    id
}

// The octet in the cell that is `i` cells behind `place`.
fn octet(sheet: &[i64], place: usize, i: usize) -> u8
    ensures { result ≡ octet_at sheet.now place i }
{
    (value(sheet, later(place, i)) % OCTETS) as u8
}
