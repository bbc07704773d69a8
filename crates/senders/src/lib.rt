// The loss table of one party (document 02, A4 and A10): for each sender and each kind of message that it sends, what was received and what was missed.
// What each function answers is defined in specs/.
#![tactic(auto)]

ghost use Rattle.std.specs.Prelude.{position, ok_or, ◌≡◌, ◌==◌, if◌then◌else◌};
ghost use Rattle.senders.specs.Rows.{free, holds};
ghost use Rattle.senders.specs.Table.{nobody, empty_table, has_sender, entered, counted, most_received, reported, dropped, shown, changed, showing};

use answers::Reason;

// The rows of a table.
const ROWS: usize = 32;

// The bytes of an id.
const ID_BYTES: usize = 8;

// The last message count.
const LAST_COUNT: u8 = 127;

// The kinds of message that have a sender, by the frame's index. They are no enum: a row holds its kind as C's number, so that an enum would be
// made of one number and turned into another at once.
const BSM: u64 = 0;

const RSM: u64 = 2;

const RSI: u64 = 4;

// A sender: its id with the kind of message, the first and the last count, and how many messages were received and missed.
// It is held where at least one was received; else its row is free. The fields leave no byte between them, so that all bytes of a table that is
// lent are numbers of it.
#[repr(C)]
#[derive(Clone, Copy)]
pub struct Sender {
    pub id: [u8; ID_BYTES],
    pub kind: u16,
    pub first: u8,
    pub last: u8,
    pub received: u32,
    pub missed: u64,
}

impl Sender {
    // What stands in a free row.
    fn nobody() -> Self
        ensures { result ≡ nobody }
    {
        Sender {
            id: [0; ID_BYTES],
            kind: 0,
            first: 0,
            last: 0,
            received: 0,
            missed: 0,
        }
    }

    // The sender with this `kind` and `id` behind its first message, which has this `count`.
    fn new(kind: u16, id: [u8; ID_BYTES], count: u8) -> Self
        ensures { result ≡ entered kind id count }
    {
        Sender {
            id,
            kind,
            first: count,
            last: count,
            received: 1,
            missed: 0,
        }
    }

    // Whether its row is free: nothing was received.
    fn is_free(&self) -> bool
        ensures { result ≡ free self.now }
    {
        self.received == 0
    }

    // Whether it is held, and is the sender with this `kind` and `id`: two values, as C hands them over and as a row has them.
    #[tactic(auto, using(crate::proofs::Bytes::same_pointwise))]
    fn holds(&self, kind: u16, id: [u8; ID_BYTES]) -> bool
        ensures { result ≡ holds kind id self.now }
    {
        !self.is_free() && self.kind == kind && self.id == id
    }

    // The sender with one message more, which has this `count`; none where it received 4,294,967,295, as many as it can.
    fn next(self, count: u8) -> Option<Self>
        ensures { result ≡ (if self.received == most_received then None else Some (counted self count)) }
    {
        let received = self.received.checked_add(1)?;
        let missed = loss::missed(self.last, count).unwrap_or(0);
        Some(Sender {
            last: count,
            received,
            missed: self.missed.wrapping_add(u64::from(missed)),
            ..self
        })
    }
}

// The rows of a table, each with its sender.
#[repr(C)]
#[derive(Clone, Copy)]
pub struct Table {
    pub senders: [Sender; ROWS],
}

impl Table {
    // A table with no sender.
    pub fn new() -> Self
        ensures { result ≡ empty_table }
    {
        Table {
            senders: [Sender::nobody(); ROWS],
        }
    }

    // Reports a message with this `count` of the sender with this `kind` and `id`, and answers the sender's row.
    #[tactic(auto, using(crate::proofs::First::spot_by_places), unfolding(crate::specs::Table::reported))]
    pub fn report(&mut self, kind: u64, id: [u8; ID_BYTES], count: u8) -> Result<usize, Reason>
        ensures { changed self.new result ≡ reported self.old kind id count }
    {
        if LAST_COUNT < count {
            return Err(Reason::Outside);
        }
        if !has_sender(kind) {
            return Err(Reason::NoSender);
        }
        match self.row_or_free(kind as u16, id) {
            Ok(row) => {
                self.senders[row] = self.senders[row].next(count).ok_or(Reason::CountFull)?;
                Ok(row)
            }
            Err(free) => {
                let row = free.ok_or(Reason::TableFull)?;
                self.senders[row] = Sender::new(kind as u16, id, count);
                Ok(row)
            }
        }
    }

    // Drops the sender with this `kind` and `id`, and answers the row that becomes free.
    #[tactic(auto, using(crate::proofs::First::spot_by_places), unfolding(crate::specs::Table::dropped))]
    pub fn drop(&mut self, kind: u64, id: [u8; ID_BYTES]) -> Result<usize, Reason>
        ensures { changed self.new result ≡ dropped self.old kind id }
    {
        if !has_sender(kind) {
            return Err(Reason::NotHeld);
        }
        let row = self.row_of(kind as u16, id).ok_or(Reason::NotHeld)?;
        self.senders[row] = Sender::nobody();
        Ok(row)
    }

    // The sender that stands in a `row`.
    #[tactic(auto, unfolding(crate::specs::Table::shown))]
    pub fn show(&self, row: u64) -> Result<Sender, Reason>
        ensures { showing result ≡ shown self.now row }
    {
        match self.senders.get(row as usize) {
            Some(sender) if !sender.is_free() => Ok(*sender),
            _ => Err(Reason::NotHeld),
        }
    }

    // The row of the sender with this `kind` and `id`.
    fn row_of(&self, kind: u16, id: [u8; ID_BYTES]) -> Option<usize>
        ensures { result ≡ position (holds kind id) self.now.senders }
    {
        self.senders.iter().position(|s| s.holds(kind, id))
    }

    // The row of the sender with this `kind` and `id`; where none holds it, the lowest free row. One look at each row, and none behind the
    // sender's own.
    #[tactic(auto, using(crate::proofs::First::all_left))]
    fn row_or_free(&self, kind: u16, id: [u8; ID_BYTES]) -> Result<usize, Option<usize>>
        ensures { result ≡ ok_or (position (holds kind id) self.now.senders) (position free self.now.senders) }
    {
        let mut free = None;
        for (row, sender) in self.senders.iter().enumerate() {
            if sender.holds(kind, id) {
                return Ok(row);
            }
            if sender.is_free() {
                free = free.or(Some(row));
            }
        }
        Err(free)
    }
}

// Whether messages of a `kind` have a sender.
fn has_sender(kind: u64) -> bool
    ensures { result ≡ has_sender kind }
{
    matches!(kind, BSM | RSM | RSI)
}
