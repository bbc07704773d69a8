// The planner: puts entries into RSI messages in order, each message as full as it can be.
// What each function answers is defined in specs/.
ghost use Rattle.std.specs.Prelude.{◌≡◌, Bool, ◌+◌, ◌-◌, ◌≤◌, ◌<◌, pos, length, replicate, ◌∷◌};
ghost use Rattle.std.proofs.lemmas.List.Edits.{sets};
ghost use Rattle.answers.specs.Answers.{answered, refused_by};
ghost use Rattle.answers.specs.Refusals.{refusal};
ghost use Rattle.plans.specs.Planner.{numbers_from, packed, plan_cells, plan_answer, plan_after};
ghost use Rattle.plans.specs.Steps.{Stopped, good_by, FirstLong, Alone, most_from};

use crate::{SIGNS, is_limit, most_in};
use answers::{Done, Failure, Reason, Refusal};
use basics::copy_front;
use packing::measured;

// How many cells a plan has at most: the count of messages, and for each of 64 messages its count of entries and one entry.
const MOST_CELLS: usize = 129;

// Makes a plan for the entries in `entries`, events (`kind` 0) or signs (1), of messages with the header in `header` and at most `limit` bytes, into
// `plan`.
pub fn make_plan(
    kind: u64,
    header: &[i64],
    entries: &[i64],
    limit: u64,
    plan: &mut [i64],
) -> Result<Done, Failure>
    ensures answer { answered result ≡ plan_answer kind header.now entries.now limit plan.old }
    ensures cells { plan.new ≡ plan_after kind header.now entries.now limit plan.old }
{
    let Some(lengths) = measured(kind, header, entries) else {
        return refused(Reason::NoValue, 0);
    };
    if !is_limit(limit) {
        return refused(Reason::Outside, 0);
    }
    let count = lengths.count;
    let base = lengths.base;
    let sizes = lengths.sizes;
    if let Some(long) = first_too_long(&sizes, count, base, limit) {
        return refused(Reason::EntryTooLong, long);
    }
    let mut made = [0i64; MOST_CELLS];
    let needed = fill(&sizes, count, kind == SIGNS, base, limit, &mut made);
    if plan.len() < needed {
        return Err(Failure::NoRoom(needed));
    }
    copy_front(&made[..needed], plan);
    Ok(Done {
        bits: 0,
        count: needed,
    })
}

// The answer where no plan is made, for this reason and with this place.
fn refused(reason: Reason, place: usize) -> Result<Done, Failure>
    ensures { answered result ≡ refused_by (refusal reason place) }
{
    Err(Failure::Refused(Refusal::new(reason, place)))
}

// The first of the `count` entries with these `sizes` that is too long for a message by itself, with the `base` bits of a message besides and at most
// `limit` bytes.
fn first_too_long(sizes: &[u64], count: usize, base: u64, limit: u64) -> Option<usize>
    requires { (count ≤ length sizes.now) × Stopped count sizes.now × (base ≤ 20000) }
    ensures { (signs : Bool) → FirstLong (good_by signs count sizes.now base limit) count result }
{
    // By the index, as the definition counts: by `position` of an iterator the contract would need the same induction once more.
    for i in 0..count {
        if limit < (base + sizes[i] + 7) / 8 {
            return Some(i);
        }
    }
    None
}

// How many of the `count` entries with these `sizes`, from `from` on, go into one message.
fn most_from(sizes: &[u64], from: usize, count: usize, signs: bool, base: u64, limit: u64) -> usize
    requires { (from ≤ count) × (count ≤ length sizes.now) × Stopped count sizes.now × (base ≤ 20000) }
    ensures { result ≡ most_from (good_by signs count sizes.now base limit) from 0 (count - from) }
{
    let most = most_in(signs);
    let mut sum = base;
    for n in 0..count - from {
        if most <= n {
            return n;
        }
        sum += sizes[from + n];
        if limit < (sum + 7) / 8 {
            return n;
        }
    }
    count - from
}

// Puts a message of `n` entries, those from `from` on, into `made` at `at`: their count, and their numbers.
fn put_message(made: &mut [i64], at: usize, from: usize, n: usize)
    requires { (at + 1 + n ≤ length made.old) × (from + n ≤ 64) }
    ensures { made.new ≡ sets made.old at (pos n ∷ numbers_from from n) }
{
    made[at] = n as i64;
    for k in 0..n {
        made[at + 1 + k] = (from + k) as i64;
    }
}

// Puts the plan for the `count` entries with these `sizes` into `made`, and answers how many cells it has.
fn fill(sizes: &[u64], count: usize, signs: bool, base: u64, limit: u64, made: &mut [i64]) -> usize
    requires { (count ≤ length sizes.now) × (count ≤ 64) × Stopped count sizes.now × (base ≤ 20000) × Alone (good_by signs count sizes.now base limit) count × (made.old ≡ replicate 129 (pos 0)) }
    ensures counted { (result ≡ length (plan_cells (packed (good_by signs count sizes.now base limit) 0 0 count))) × (result ≤ 129) }
    ensures stored { made.new ≡ sets (replicate 129 (pos 0)) 0 (plan_cells (packed (good_by signs count sizes.now base limit) 0 0 count)) }
{
    let mut at = 1;
    let mut from = 0;
    let mut messages: u64 = 0;
    // No `for`: each round goes on by as many entries as its message has.
    while from < count {
        let n = most_from(sizes, from, count, signs, base, limit);
        put_message(made, at, from, n);
        at = at + 1 + n;
        from += n;
        messages += 1;
    }
    made[0] = messages as i64;
    at
}
