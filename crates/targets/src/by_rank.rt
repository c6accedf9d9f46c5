// A table of joins by rank: one row, or the least of several, held against other rows without a merge for each.
ghost use Rattle.std.specs.Prelude.{◌≡◌};
ghost use Rattle.targets.specs.Inner.{NotedLow, RanksIn, noted_in, reach_of};

use entry::{Entry, joins_of, rank_of};

// No joins at all: above every sum of the joins of two entries of sound rows. A table that has noted nothing is full of it.
pub const APART: u16 = 65535;

// A row's joins noted by rank, where they are fewer than what stands there.
pub fn note(row: &[Entry], noted: &mut [u16])
    requires { RanksIn noted.old row.now }
    ensures { noted.new ≡ noted_in row.now noted.old }
{
    for e in row {
        let rank = rank_of(*e);
        let joins = joins_of(*e) as u16;
        if joins < noted[rank] {
            noted[rank] = joins;
        }
    }
}

// The fewest joins of a row's entries and the table together, at most `APART`. The sums have 32 bits, so
// that more of them are made at once than of 64.
pub fn reach(noted: &[u16], row: &[Entry]) -> usize
    requires { RanksIn noted.now row.now × NotedLow noted.now }
    ensures { result ≡ reach_of noted.now row.now }
{
    let mut found = APART as u32;
    for e in row {
        let sum = joins_of(*e) as u32 + noted[rank_of(*e)] as u32;
        found = found.min(sum);
    }
    found as usize
}
