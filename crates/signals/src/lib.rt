// The signal message against the map: whether each phase that a node of a MAP uses is listed in that node's entry of a SPAT.
// What each function answers is defined in specs/.
#![tactic(auto)]

ghost use Rattle.std.specs.Prelude.{◌≡◌, Bool, ◌∷◌, [], List, ℕ, ◌*◌, ◌≤◌, ◌<◌, length, false, get_or, MatchResult};
ghost use Rattle.types.specs.Rows;
ghost use Rattle.types.specs.Table.{numbers};
ghost use Rattle.meaning.specs.Values.{Value, Parts, Values};
ghost use Rattle.sheet.specs.Values.{parts_of};
ghost use Rattle.sheet.specs.Standing.{Stands};
ghost use Rattle.messages.specs.Message.{each};
ghost use Rattle.messages.specs.Taking.{Framed, Rowed};
ghost use Rattle.messages.specs.Seeking.{Sought};
ghost use Rattle.signals.specs.Phases.{gathered, phase_at, lane_phases, link_phases, listed_phase};
ghost use Rattle.signals.specs.Signal.{first_unlisted, node_unlisted, first_node, judged, signal_verdict, nodes_in};
ghost use Rattle.signals.specs.Mismatches.{mismatch, told};
ghost use Rattle.signals.specs.Steps.{Refers, Keyed, flags_each, Flags, Marked, Gathered, Again, Found, Finds, IsTurn, signal_row, phase_row, node_row, link_row, lane_row};

use answers::Reason;
use messages::{Listing, MAP_FRAME, SPAT_FRAME, behind, entries_of, framed, number_of, position};
use sheet::{Choice, Part, component, has};

// Components of SPAT (source 000, 5.2.2.5), IntersectionState (5.2.3.9) and Phase (5.2.3.30).
const INTERSECTIONS: usize = 4;

const INTERSECTION_ID: usize = 0;

const PHASES: usize = 5;

const PHASE_ID: usize = 0;

// Components of MapData (5.2.2.2), Node (5.2.3.20) and NodeReferenceID (5.2.3.22).
const NODES: usize = 2;

const NODE_ID: usize = 1;

const IN_LINKS: usize = 3;

const REGION: usize = 0;

const LOCAL_ID: usize = 1;

// Components of Link (5.2.3.15), Movement (5.2.3.18), Lane (5.2.3.11) and Connection (5.2.3.4).
const MOVEMENTS: usize = 5;

const LANES: usize = 6;

const MOVEMENT_PHASE: usize = 1;

const CONNECTS_TO: usize = 4;

const CONNECTION_PHASE: usize = 2;

// How many signal entries a SPAT has at most, how many phases there are, and a flag for each phase of each entry.
const MOST_ENTRIES: usize = 32;

const FLAGS_EACH: usize = 256;

const FLAGS: usize = MOST_ENTRIES * FLAGS_EACH;

// How many ids and how many regions there are.
const MANY: u64 = 65536;

// Which sheet is no value, told as the node.
const SIGNAL_SHEET: usize = 0;

const MAP_SHEET: usize = 1;

// A failure: why, the node or the signal entry, and the phase; the last two are 0 where none is meant.
#[derive(Clone, Copy, Debug, PartialEq, Eq, Hash)]
pub struct Mismatch {
    pub reason: Reason,
    pub node: usize,
    pub phase: u64,
}

impl Mismatch {
    // The failure for this reason, of this node or signal entry and this phase.
    pub fn new(reason: Reason, node: usize, phase: u64) -> Self
        ensures { result ≡ mismatch reason node phase }
    {
        Mismatch {
            reason,
            node,
            phase,
        }
    }
}

// What the entries of a signal message list: how many entries these are, the key of each, and for each a flag of each phase.
#[derive(Drop)]
struct Lists {
    keys: [u64; MOST_ENTRIES],
    flags: [bool; FLAGS],
    count: usize,
    ghost few: { count ≤ 32 },
}

impl Lists {
    // Takes in what the signal `entries` in `sheet` list, where nothing is flagged before; or answers the first of them that repeats an earlier one.
    fn gather(&mut self, rows: &[u32], entries: Listing, sheet: &[i64]) -> Result<(), usize>
        requires { (rows.now ≡ numbers Rows.rows) × (entries.count ≤ 32) × ((k : ℕ) → get_or self.old.flags k false ≡ false) }
        ensures { (vs : Values) → Rowed sheet.now signal_row entries vs → MatchResult result (λ done. Gathered vs self.new.count self.new.keys self.new.flags) (λ again. Again vs again) }
    {
        let count = entries.count as usize;
        // A loop, and not first_told: a closure that changes the lists would leave nothing known of what it returned.
        let mut at = entries.place;
        for i in 0..count {
            let key = reference(rows, entries.row, INTERSECTION_ID, sheet, at);
            if position(&self.keys, i, key) < i {
                return Err(i);
            }
            self.keys[i] = key;
            let phases = entries_of(rows, entries.row, PHASES, sheet, at);
            list_phases(rows, phases, sheet, i, &mut self.flags);
            at = behind(rows, entries.row, sheet, at);
        }
        self.count = count;
        Ok(())
    }
}

// Checks that each phase that a node of the map in the sheet `map` uses is listed in that node's entry of the signal message in the sheet
// `signal`. Both are sheets of the message frame.
pub fn check_signal(signal: &[i64], map: &[i64]) -> Result<(), Mismatch>
    ensures { told result ≡ signal_verdict signal.now map.now }
{
    let rows = types::rows();
    match framed(&rows, signal) {
        Ok(Choice { index, row, place }) => beside(&rows, index, row, signal, place, map),
        Err(why) => Err(Mismatch::new(why.reason, SIGNAL_SHEET, 0)),
    }
}

// How many nodes the map in `sheet` has; 0 where it is no MAP.
pub fn nodes_in(sheet: &[i64]) -> u64
    ensures { result ≡ nodes_in sheet.now }
{
    let rows = types::rows();
    match framed(&rows, sheet) {
        Ok(Choice { index, row, place }) => {
            if index != MAP_FRAME {
                return 0;
            }
            let nodes = entries_of(&rows, row, NODES, sheet, place);
            nodes.count
        }
        Err(_) => 0,
    }
}

// The first failure where the frame in `signal` holds a message of this `kind`, of the type of `row` at `place`.
fn beside(
    rows: &[u32],
    kind: u64,
    row: usize,
    signal: &[i64],
    place: usize,
    map: &[i64],
) -> Result<(), Mismatch>
    requires { (rows.now ≡ numbers Rows.rows) × Framed signal.now kind row place }
    ensures { told result ≡ signal_verdict signal.now map.now }
{
    match framed(rows, map) {
        Ok(mapped) => {
            if kind != SPAT_FRAME {
                return Err(Mismatch::new(Reason::NoSpatAndMap, 0, 0));
            }
            if mapped.index != MAP_FRAME {
                return Err(Mismatch::new(Reason::NoSpatAndMap, 0, 0));
            }
            let entries = entries_of(rows, row, INTERSECTIONS, signal, place);
            let nodes = entries_of(rows, mapped.row, NODES, map, mapped.place);
            compare(rows, entries, signal, nodes, map)
        }
        Err(why) => Err(Mismatch::new(why.reason, MAP_SHEET, 0)),
    }
}

// The first failure of the `entries` of a SPAT in `signal` and the `nodes` of a MAP in `map`.
fn compare(
    rows: &[u32],
    entries: Listing,
    signal: &[i64],
    nodes: Listing,
    map: &[i64],
) -> Result<(), Mismatch>
    requires { (rows.now ≡ numbers Rows.rows) × (entries.count ≤ 32) }
    ensures { (vs ws : Values) → Rowed signal.now signal_row entries vs → Rowed map.now node_row nodes ws → told result ≡ judged vs ws }
{
    let mut lists = Lists {
        keys: [0; MOST_ENTRIES],
        flags: [false; FLAGS],
        count: 0,
    };
    match lists.gather(rows, entries, signal) {
        Ok(()) => judge(rows, nodes, map, &lists),
        Err(again) => Err(Mismatch::new(Reason::RepeatedSignal, again, 0)),
    }
}

// The key of the reference that is component `k` of the sequence of the type of `row` at `place`: no two references have the same.
fn reference(rows: &[u32], row: usize, k: usize, sheet: &[i64], place: usize) -> u64
    requires { rows.now ≡ numbers Rows.rows }
    ensures { (v : Value) → Refers row k → Stands sheet.now row place v → Keyed k (parts_of v) result }
{
    match component(rows, row, k, sheet, place) {
        Ok(Some(Part { row, place })) => {
            let id = number_of(rows, row, LOCAL_ID, sheet, place) % MANY;
            if has(rows, row, REGION, sheet, place) {
                let region = number_of(rows, row, REGION, sheet, place) % MANY;
                return (region + 1) * MANY + id;
            }
            id
        }
        Ok(None) => 0,
        Err(_) => 0,
    }
}

// Flags each of the `phases` in `sheet`, which entry `i` lists.
fn list_phases(rows: &[u32], phases: Listing, sheet: &[i64], i: usize, flags: &mut [bool])
    requires { (rows.now ≡ numbers Rows.rows) × (i < 32) × (length flags.old ≡ 8192) }
    ensures { (vs : Values) → Rowed sheet.now phase_row phases vs → Marked (flags_each * i) (each listed_phase vs) flags.old flags.new }
{
    // A loop, and not first_told: every phase is flagged, and none ends it.
    let mut at = phases.place;
    for _n in 0..phases.count {
        let phase = number_of(rows, phases.row, PHASE_ID, sheet, at) as usize % FLAGS_EACH;
        flags[FLAGS_EACH * i + phase] = true;
        at = behind(rows, phases.row, sheet, at);
    }
}

// The first of the `nodes` in `map` that uses a phase which its signal entry, by `lists`, does not list.
fn judge(rows: &[u32], nodes: Listing, map: &[i64], lists: &Lists) -> Result<(), Mismatch>
    requires { rows.now ≡ numbers Rows.rows }
    ensures { (vs ws : Values) → Gathered vs lists.now.count lists.now.keys lists.now.flags → Rowed map.now node_row nodes ws → told result ≡ first_node vs 0 ws }
{
    match first_told(rows, nodes, map, |at| node(rows, nodes.row, map, at, lists)) {
        Some((n, phase)) => Err(Mismatch::new(Reason::PhaseNotListed, n, phase)),
        None => Ok(()),
    }
}

// The first phase that the node of the type of `row` at `place` uses and that its signal entry, by `lists`, does not list; none where the node has
// no entry.
fn node(rows: &[u32], row: usize, map: &[i64], place: usize, lists: &Lists) -> Option<u64>
    requires { rows.now ≡ numbers Rows.rows }
    ensures { (vs : Values) (v : Value) → Gathered vs lists.now.count lists.now.keys lists.now.flags → row ≡ node_row → Stands map.now row place v → Found result (node_unlisted vs (parts_of v)) }
{
    let key = reference(rows, row, NODE_ID, map, place);
    let entry = position(&lists.keys, lists.count, key);
    if lists.count <= entry {
        return None;
    }
    let listed = &lists.flags[FLAGS_EACH * entry..FLAGS_EACH * (entry + 1)];
    let links = entries_of(rows, row, IN_LINKS, map, place);
    first_in(rows, links, map, |at| {
        link(rows, links.row, map, at, listed)
    })
}

// The first phase that the link of the type of `row` at `place` uses and that is not `listed`: by its movements, then by its lanes.
fn link(rows: &[u32], row: usize, map: &[i64], place: usize, listed: &[bool]) -> Option<u64>
    requires { (rows.now ≡ numbers Rows.rows) × (length listed.now ≡ 256) }
    ensures { (says : ℕ → Bool) (v : Value) → Flags listed.now says → row ≡ link_row → Stands map.now row place v → Found result (first_unlisted says (link_phases (parts_of v))) }
{
    let movements = entries_of(rows, row, MOVEMENTS, map, place);
    let moved = first_in(rows, movements, map, |at| {
        turn(rows, movements.row, MOVEMENT_PHASE, map, at, listed)
    });
    if let Some(phase) = moved {
        return Some(phase);
    }
    let lanes = entries_of(rows, row, LANES, map, place);
    first_in(rows, lanes, map, |at| {
        lane(rows, lanes.row, map, at, listed)
    })
}

// The first phase that the lane of the type of `row` at `place` uses and that is not `listed`.
fn lane(rows: &[u32], row: usize, map: &[i64], place: usize, listed: &[bool]) -> Option<u64>
    requires { (rows.now ≡ numbers Rows.rows) × (length listed.now ≡ 256) }
    ensures { (says : ℕ → Bool) (v : Value) → Flags listed.now says → row ≡ lane_row → Stands map.now row place v → Found result (first_unlisted says (lane_phases (parts_of v))) }
{
    let connections = entries_of(rows, row, CONNECTS_TO, map, place);
    first_in(rows, connections, map, |at| {
        turn(rows, connections.row, CONNECTION_PHASE, map, at, listed)
    })
}

// The phase of the movement or connection of the type of `row` at `place`, which is its component `k`, unless it is `listed`.
fn turn(
    rows: &[u32],
    row: usize,
    k: usize,
    map: &[i64],
    place: usize,
    listed: &[bool],
) -> Option<u64>
    requires { (rows.now ≡ numbers Rows.rows) × (length listed.now ≡ 256) }
    ensures { (says : ℕ → Bool) (v : Value) → Flags listed.now says → IsTurn row k → Stands map.now row place v → Found result (first_unlisted says (phase_at k (parts_of v))) }
{
    unless_listed(number_of(rows, row, k, map, place), listed)
}

// The first phase that is told of the `entries` in `map`, where `used` tells the first of the entry at a place.
fn first_in<F: Fn(usize) -> Option<u64>>(
    rows: &[u32],
    entries: Listing,
    map: &[i64],
    used: F,
) -> Option<u64>
    requires table { rows.now ≡ numbers Rows.rows }
    requires calls { F.IsAlwaysCallable used }
    ensures { (says : ℕ → Bool) (uses : Parts → List ℕ) (row : ℕ) (vs : Values) → row < 414 → Rowed map.now row entries vs → Finds (F.post used) map.now entries row says uses → Found result (first_unlisted says (gathered uses vs)) }
{
    match first_told(rows, entries, map, used) {
        Some((_, phase)) => Some(phase),
        None => None,
    }
}

// The first entry of `list` in `sheet` of which `tell` says something, by its place: which one it is, counted from 0, and what is said; nothing
// where there is none.
fn first_told<T, F: Fn(usize) -> Option<T>>(
    rows: &[u32],
    list: Listing,
    sheet: &[i64],
    tell: F,
) -> Option<(usize, T)>
    requires calls { F.IsAlwaysCallable tell }
    ensures { rows.now ≡ numbers Rows.rows → (row : ℕ) (vs : Values) → row < 414 → Rowed sheet.now row list vs → Sought (F.post tell) sheet.now list row 0 vs result }
{
    let mut at = list.place;
    for i in 0..list.count as usize {
        if let Some(said) = tell(at) {
            return Some((i, said));
        }
        at = behind(rows, list.row, sheet, at);
    }
    None
}

// The `phase`, unless it is 0, which is none, or `listed`.
fn unless_listed(phase: u64, listed: &[bool]) -> Option<u64>
    requires { length listed.now ≡ 256 }
    ensures { (says : ℕ → Bool) → Flags listed.now says → phase < 256 → Found result (first_unlisted says (phase ∷ [])) }
{
    if phase == 0 {
        return None;
    }
    if listed[phase as usize % FLAGS_EACH] {
        return None;
    }
    Some(phase)
}
