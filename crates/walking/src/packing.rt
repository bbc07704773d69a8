// How a walk's answer is packed into one number: the next place of the target above the next place of the source, or a refusal.
// specs/Packed.antt has these numbers for the promises, so that a number here that differs from its own breaks a promise.
// Where the walk of reading and the fields below it answered a Result of two places and a refusal, reading took 4 in a hundred longer.
ghost use Rattle.std.specs.Prelude.{◌≡◌};
ghost use Rattle.walking.specs.Packed.{refusal_in};

use answers::{Reason, Refusal};

// An answer that is at least this is a refusal.
pub const REFUSED: u64 = 9223372036854775808;

// The next place of the target, or the number of a refusal, is multiplied by this; a place of the source is below it.
pub const UNIT: u64 = 4294967296;

// The number of a refusal is below this.
pub const NUMBER_ROOM: u64 = 128;

// The row of a refusal is multiplied by this, and below the one after it.
pub const ROW_UNIT: u64 = 549755813888;

pub const ROW_ROOM: u64 = 1024;

// So are the bits that a field lacks.
pub const LACKING_UNIT: u64 = 562949953421312;

pub const LACKING_ROOM: u64 = 64;

// The next place of the target, or the number of a refusal with what it may carry besides, is below this.
pub const NEXT_ROOM: u64 = 2147483648;

// The farthest place of the target: counts stop here.
pub const FARTHEST: usize = 2147483647;

// The refusal in the answer `r` of a walk that stopped.
#[tactic(auto, unfolding(crate::specs::Packed::reason_in))]
pub fn refusal_in(r: u64) -> Refusal
    ensures { result ≡ refusal_in r }
{
    let reason = Reason::with_number(r / UNIT % NUMBER_ROOM).unwrap_or(Reason::UnknownType);
    let row = (r / ROW_UNIT % ROW_ROOM) as usize;
    let lacking = (r / LACKING_UNIT % LACKING_ROOM) as usize;
    Refusal::carrying(reason, row, lacking, (r % UNIT) as usize)
}
