// Plans for entries of RSI messages: which entry goes into which message.
// What each function answers is defined in specs/.
#![tactic(auto)]

pub mod planner;

ghost use Rattle.std.specs.Prelude.{◌≡◌, List, ℕ, ◌+◌, ◌≤◌, ◌<◌, ℤ, length, get_or, take, drop};
ghost use Rattle.answers.specs.GivenBack as given;
ghost use Rattle.messages.specs.Repeats.{or_else};
ghost use Rattle.rules.specs.Rsi.{ruling, passes};
ghost use Rattle.rules.specs.Breaches.{told};
ghost use Rattle.packing.specs.Entries.{most_in};
ghost use Rattle.plans.specs.Plans.{plan_of, first_bad, is_limit, plan_checked};
ghost use Rattle.plans.specs.Steps.{IsPlan, Twice, Counted, CountedAll, Tallied, Tally, FirstOf, Stopped, good_by};

use answers::Reason;
use packing::{measured, number_at};
use rules::Breach;

// The kind of entries that are signs; events are 0.
const SIGNS: u64 = 1;

// How many entries there are at most.
const MOST_ENTRIES: usize = 64;

// How many entries the lists have at most (source 000, 5.2.3.54 and 5.2.3.56).
const MOST_EVENTS: usize = 8;

const MOST_SIGNS: usize = 16;

// The highest limit: the bytes of the longest message.
const MOST_BYTES: u64 = 2048;

// Checks a plan for the entries in `entries`, events (`kind` 0) or signs (1), of messages with the header in `header` and at most `limit` bytes: the first
// thing that is wrong.
pub fn check_plan(
    kind: u64,
    header: &[i64],
    entries: &[i64],
    plan: &[i64],
    limit: u64,
) -> Result<(), Breach>
    ensures { told result ≡ plan_checked kind header.now entries.now plan.now limit }
{
    let Some(lengths) = measured(kind, header, entries) else {
        return Err(Breach::new(Reason::NoValue, 0));
    };
    let count = lengths.count;
    let mut times = [0u64; MOST_ENTRIES];
    if !tally(plan, count, &mut times) {
        return Err(Breach::new(Reason::NoValue, 0));
    }
    if !is_limit(limit) {
        return Err(Breach::new(Reason::Outside, 0));
    }
    if let Some(i) = first_not_once(&times, count) {
        return Err(Breach::new(Reason::EntryNotOnce, i));
    }
    let sizes = lengths.sizes;
    let base = lengths.base;
    judge_messages(plan, kind == SIGNS, count, &sizes, base, limit)
}

// Whether `limit` is one of 1 to 2,048 bytes.
fn is_limit(limit: u64) -> bool
    ensures { result ≡ is_limit limit }
{
    if limit < 1 {
        return false;
    }
    limit <= MOST_BYTES
}

// Counts in `times` entry `i`, if it is one of the `count` entries, up to 2.
fn count_entry(i: usize, count: usize, times: &mut [u64])
    requires { (count ≤ 64) × (length times.old ≡ 64) × Twice count times.old }
    ensures { Counted i count times.old times.new }
{
    if count <= i {
        return;
    }
    let held = times[i];
    if 2 <= held {
        return;
    }
    times[i] = held + 1;
}

// Counts in `times` the entries, of which there are `count`, that the `n` numbers of `plan` from `at` on name, each up to 2.
fn count_message(plan: &[i64], at: usize, n: usize, count: usize, times: &mut [u64])
    requires { (at + n ≤ length plan.now) × (count ≤ 64) × (length times.old ≡ 64) × Twice count times.old }
    ensures { CountedAll (take n (drop at plan.now)) count times.old times.new }
{
    for k in 0..n {
        let i = number_at(plan, at + k, count);
        count_entry(i, count, times);
    }
}

// Whether `plan` is of its form; and in `times` how often each of the `count` entries stands in it, up to 2.
fn tally(plan: &[i64], count: usize, times: &mut [u64]) -> bool
    requires { (count ≤ 64) × (length times.old ≡ 64) × ((j : ℕ) → j < count → get_or times.old j 0 ≡ 0) }
    ensures { Tallied (plan_of plan.now) count times.new result }
{
    let cells = plan.len();
    if cells == 0 {
        return false;
    }
    let messages = number_at(plan, 0, cells);
    if cells <= messages {
        return false;
    }
    let mut at = 1;
    for _m in 0..messages {
        if cells <= at {
            return false;
        }
        let room = cells - at;
        let n = number_at(plan, at, room);
        if room <= n {
            return false;
        }
        count_message(plan, at + 1, n, count, times);
        at = at + 1 + n;
    }
    at == cells
}

// The first of `count` entries that was not counted once in `times`.
fn first_not_once(times: &[u64], count: usize) -> Option<usize>
    requires { count ≤ length times.now }
    ensures { (messages : List (List ℤ)) → Tally messages count times.now → FirstOf messages count result }
{
    // By the index, as the definition counts: by `position` of an iterator the contract would need the same induction once more.
    for i in 0..count {
        if times[i] != 1 {
            return Some(i);
        }
    }
    None
}

// How many entries a list has at most, of signs or of events.
fn most_in(signs: bool) -> usize
    ensures { result ≡ most_in signs }
{
    if signs {
        return MOST_SIGNS;
    }
    MOST_EVENTS
}

// Whether the `n` numbers of `plan` from `at` on are a good message: of the `count` entries with these `sizes`, in order, not too many, and with the
// `base` bits of a message besides not more than `limit` bytes.
fn fits(
    plan: &[i64],
    at: usize,
    n: usize,
    signs: bool,
    count: usize,
    sizes: &[u64],
    base: u64,
    limit: u64,
) -> bool
    requires { (at + n ≤ length plan.now) × (count ≤ length sizes.now) × Stopped count sizes.now × (base ≤ 20000) }
    ensures { result ≡ good_by signs count sizes.now base limit (take n (drop at plan.now)) }
{
    if n == 0 {
        return false;
    }
    if most_in(signs) < n {
        return false;
    }
    let mut least = 0;
    let mut sum = base;
    for k in 0..n {
        let i = number_at(plan, at + k, count);
        if count <= i {
            return false;
        }
        if i < least {
            return false;
        }
        sum += sizes[i];
        least = i + 1;
    }
    (sum + 7) / 8 <= limit
}

// The first message of `plan` that is not good, by the sizes of the `count` entries.
fn judge_messages(
    plan: &[i64],
    signs: bool,
    count: usize,
    sizes: &[u64],
    base: u64,
    limit: u64,
) -> Result<(), Breach>
    requires { ((messages : List (List ℤ)) × IsPlan plan.now messages) × (count ≤ length sizes.now) × Stopped count sizes.now × (base ≤ 20000) }
    ensures { (messages : List (List ℤ)) → IsPlan plan.now messages → told result ≡ or_else (ruling given.wrong_message) (first_bad (good_by signs count sizes.now base limit) 0 messages) passes }
{
    let cells = plan.len();
    let many = number_at(plan, 0, cells);
    let mut at = 1;
    for m in 0..many {
        let n = number_at(plan, at, cells);
        if !fits(plan, at + 1, n, signs, count, sizes, base, limit) {
            return Err(Breach::new(Reason::WrongMessage, m));
        }
        at = at + 1 + n;
    }
    Ok(())
}
