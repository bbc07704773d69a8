// Records one behind the other, each two bytes of length, high byte first, and then so many bytes: what is held of one, for every program.
#![tactic(auto)]

ghost use Rattle.std.specs.Prelude.{◌≡◌, ◌≤◌, get_or};
ghost use Rattle.records.specs.Records.{two_bytes, longest, head_of, head_says, head_answer, asked, first_record, inside, record_says, record_answer};

// The bytes of a record's length.
pub const HEAD: usize = 2;

// The bytes of the longest record with its length: two bytes of length say at most 65,535.
pub const LONGEST: usize = HEAD + 65535;

// What is held ends inside a record.
#[derive(Clone, Copy, Debug, PartialEq, Eq, Hash)]
pub struct Cut;

// Where a record of held bytes starts behind its length, and where it ends.
#[derive(Clone, Copy, Debug, PartialEq, Eq, Hash)]
pub struct Record {
    pub start: usize,
    pub end: usize,
}

// The number in the first two of `bytes`, high byte first; a byte that is not there counts as 0.
pub fn two_bytes(bytes: &[u8]) -> u64
    ensures number { result ≡ two_bytes bytes.now }
    ensures small { result ≤ longest }
{
    u64::from(u16::from_be_bytes([byte_at(bytes, 0), byte_at(bytes, 1)]))
}

// The byte of `bytes` at the place `at`, or 0 where there is none.
fn byte_at(bytes: &[u8], at: usize) -> u8
    ensures { result ≡ get_or bytes.now at 0 }
{
    bytes.get(at).copied().unwrap_or(0)
}

// What `held`, the first bytes of a record as far as they are there, says of its length: how many bytes follow, or that there is no record.
#[tactic(auto, unfolding(crate::specs::Records::head_of, crate::specs::Records::asked, crate::specs::Records::head_says, crate::specs::Records::head_answer))]
pub fn head_of(held: &[u8]) -> Result<Option<usize>, Cut>
    ensures answer { result ≡ head_of held.now }
    ensures says { head_says result ≡ head_answer held.now }
    ensures small { asked result ≤ longest }
{
    if held.is_empty() {
        return Ok(None);
    }
    if held.len() < HEAD {
        return Err(Cut);
    }
    Ok(Some(two_bytes(held) as usize))
}

// The first record of `held`, where there is one.
#[tactic(auto, using(crate::proofs::Records::first_says), unfolding(crate::specs::Records::asked, crate::specs::Records::record_by, crate::specs::Records::inside))]
pub fn first_record(held: &[u8]) -> Result<Option<Record>, Cut>
    ensures answer { result ≡ first_record held.now }
    ensures says { record_says result ≡ record_answer held.now }
    ensures small { inside result ≤ longest }
{
    let Some(bytes) = head_of(held)? else {
        return Ok(None);
    };
    let end = HEAD + bytes;
    if held.len() < end {
        return Err(Cut);
    }
    Ok(Some(Record { start: HEAD, end }))
}
