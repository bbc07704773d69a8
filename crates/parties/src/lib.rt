// The loss tables of two parties in one (document 02, A10): each party has its own rows, and neither sees the other's.
// What each function answers is defined in specs/.
#![tactic(auto)]

ghost use Rattle.std.specs.Prelude.{◌≡◌};
ghost use Rattle.parties.specs.Parties.{empty_parties, reported_by, dropped_by, shown_by, answered_with, party_of};
ghost use Rattle.senders.specs.Table.{showing};

use answers::Reason;
use senders::{Sender, Table};

// The two parties, by whose rows they have: the logger is party 0, and the map display party 1.
#[derive(Clone, Copy)]
enum Party {
    Logger,
    Display,
}

impl TryFrom<u64> for Party {
    type Error = Reason;

    ghost try_from_gives = { λ number party. party ≡ party_of number };

    fn try_from(number: u64) -> Result<Self, Reason> {
        match number {
            0 => Ok(Party::Logger),
            1 => Ok(Party::Display),
            _ => Err(Reason::UnknownParty),
        }
    }
}

// The rows of both parties: those of party 0, the logger, and those of party 1, the map display.
#[repr(C)]
#[derive(Clone, Copy)]
pub struct Parties {
    pub logger: Table,
    pub display: Table,
}

impl Parties {
    // Rows with no sender, for both parties.
    pub fn new() -> Self
        ensures { result ≡ empty_parties }
    {
        Parties {
            logger: Table::new(),
            display: Table::new(),
        }
    }

    // Reports a message with this `count` of the sender with this `kind` and `id` to the rows of a `party`, and answers the sender's row.
    #[tactic(auto, unfolding(crate::specs::Parties::reported_by, crate::specs::Parties::share_of, crate::specs::Parties::with_share))]
    pub fn report(&mut self, party: u64, kind: u64, id: [u8; 8], count: u8) -> Result<usize, Reason>
        ensures { answered_with self.new result ≡ reported_by self.old party kind id count }
    {
        match Party::try_from(party)? {
            Party::Logger => self.logger.report(kind, id, count),
            Party::Display => self.display.report(kind, id, count),
        }
    }

    // Drops the sender with this `kind` and `id` from the rows of a `party`, and answers the row that becomes free.
    #[tactic(auto, unfolding(crate::specs::Parties::dropped_by, crate::specs::Parties::share_of, crate::specs::Parties::with_share))]
    pub fn drop(&mut self, party: u64, kind: u64, id: [u8; 8]) -> Result<usize, Reason>
        ensures { answered_with self.new result ≡ dropped_by self.old party kind id }
    {
        match Party::try_from(party)? {
            Party::Logger => self.logger.drop(kind, id),
            Party::Display => self.display.drop(kind, id),
        }
    }

    // The sender that stands in a `row` of a `party`.
    #[tactic(auto, unfolding(crate::specs::Parties::shown_by, crate::specs::Parties::share_of))]
    pub fn show(&self, party: u64, row: u64) -> Result<Sender, Reason>
        ensures { showing result ≡ shown_by self.now party row }
    {
        match Party::try_from(party)? {
            Party::Logger => self.logger.show(row),
            Party::Display => self.display.show(row),
        }
    }
}
