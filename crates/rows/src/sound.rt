// Sound rows: strictly rising ranks below the bound, joins below n. The unused places of a row are not looked at.
ghost use Rattle.std.specs.Prelude.{◌≡◌, not, ◌-◌, ◌≤◌, ◌<◌, length};
ghost use Rattle.basics.specs.Places.{count, some};
ghost use Rattle.refusal.specs.Sizes.{most_frames, most_width};
ghost use Rattle.rows.specs.Rooms.{faulty_entry};
ghost use Rattle.rows.specs.Inner.{breaks, broken_at};

use entry::{Entry, joins_of, rank_of};

// Whether an entry breaks the rule behind the one before it.
fn breaks(n: u32, before: Entry, e: Entry) -> bool
    ensures { result ≡ breaks n before e }
{
    rank_of(e) <= rank_of(before) || n as usize <= joins_of(e)
}

// How many entries break the rule behind the one before them. No turn leaves the loop, so that several are held to it at once.
pub fn faults(n: u32, row: &[Entry]) -> u32
    requires { (0 < length row.now) × (length row.now ≤ most_width) }
    ensures { result ≡ count (broken_at n row.now) (length row.now - 1) }
{
    let mut found = 0;
    // By its place: a long row is slower to go through by `windows(2)`, or by `zip`.
    for at in 1..row.len() {
        found += u32::from(breaks(n, row[at - 1], row[at]));
    }
    found
}

// Whether no entry of a row's used part is faulty. Ranks rise, so that only the last is held against the bound.
pub fn sound_part(n: usize, bound: usize, row: &[Entry]) -> bool
    requires { (n ≤ most_frames) × (length row.now ≤ most_width) }
    ensures { result ≡ not (some (faulty_entry n bound row.now) 0 (length row.now)) }
{
    let Some(last) = row.last() else {
        return true;
    };
    joins_of(row[0]) < n && faults(n as u32, row) == 0 && rank_of(*last) < bound
}
