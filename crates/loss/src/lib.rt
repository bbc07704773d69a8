// The loss count: how many messages were missed between two message counts.
#![tactic(auto)]

ghost use Rattle.std.specs.Prelude.{◌≡◌};
ghost use Rattle.loss.specs.Ring.{missed_between, told};

use answers::Reason;

// The last message count, after which they start again.
const LAST: u8 = 127;

// How many message counts there are.
const COUNTS: u8 = 128;

// Messages missed between an `old` and a `new` count. The bytes go round a ring of 256, and 128 divides it, so the remainder by 128 is the
// place on the counts' own ring.
#[tactic(auto, using(crate::proofs::Ring::by_terms), unfolding(crate::specs::Ring::missed_between))]
pub fn missed(old: u8, new: u8) -> Result<u8, Reason>
    ensures { told result ≡ missed_between old new }
{
    if LAST < old || LAST < new {
        return Err(Reason::Outside);
    }
    Ok(new.wrapping_sub(old).wrapping_sub(1) % COUNTS)
}
