// The entry's layout, rank * 65,536 + joins: no other crate takes an entry apart.
#![tactic(auto)]

ghost use Rattle.std.specs.Prelude.{◌≡◌};
ghost use Rattle.entry.specs.Entry.{rank_of, joins_of, entry_of};

pub type Entry = u32;

// What a rank counts for in an entry, as an entry and as a number; the joins are below it.
const RANK_STEP: u32 = 65536;

pub const RANK_STEP_WIDE: usize = 65536;

// The rank of an entry.
pub fn rank_of(e: Entry) -> usize
    ensures { result ≡ rank_of e }
{
    (e / RANK_STEP) as usize
}

// The joins of an entry.
pub fn joins_of(e: Entry) -> usize
    ensures { result ≡ joins_of e }
{
    (e % RANK_STEP) as usize
}

// The entry of a rank and its joins, each taken modulo 65,536.
pub fn entry_of(rank: usize, joins: usize) -> Entry
    ensures { result ≡ entry_of rank joins }
{
    ((rank % RANK_STEP_WIDE) * RANK_STEP_WIDE + joins % RANK_STEP_WIDE) as u32
}
