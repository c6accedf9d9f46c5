// The sixteen counts: how many frames are how many joins from their nearest target. The records' rows are noted by rank, the
// fewest joins for each, so that one pass over all rows finds every frame's nearest.
ghost use Rattle.std.specs.Prelude.{◌≡◌, length, replicate};
ghost use Rattle.targets.specs.Inner.{AllKnown, RaiseIn, RowsKnown, frames_in, noted_rows, raised_at, reached_counts};
ghost use Rattle.targets.specs.Sixteen.{sixteen_of, sixteen_told};
ghost use Rattle.targets.specs.Targets.{frames_of};

use crate::record::{Listed, Target};
use crate::{by_rank, record, tests};
use entry::Entry;
use refusal::{Reason, Refusal};

// The rows of all records noted by rank.
fn note_all(w: usize, labels: &[Entry], counts: &[u32], frames: &[u32], noted: &mut [u16])
    requires { RowsKnown w labels.now counts.now frames.now noted.old }
    ensures { noted.new
        ≡ noted_rows w labels.now counts.now frames.now noted.old }
{
    for named in frames {
        let frame = *named as usize;
        by_rank::note(
            rows::part::row_part(labels, w, frame, counts[frame] as usize),
            noted,
        );
    }
}

// One more frame counted, so many joins from its nearest target; none where it has none.
fn raise(sixteen: &mut [u64], joins: usize)
    requires { RaiseIn sixteen.old }
    ensures { sixteen.new ≡ raised_at sixteen.old joins }
{
    if joins < by_rank::APART as usize {
        let i = joins.min(15);
        sixteen[i] += 1;
    }
}

// All frames counted, by what is noted.
fn count_all(w: usize, labels: &[Entry], counts: &[u32], noted: &[u16], sixteen: &mut [u64])
    requires { AllKnown w labels.now counts.now noted.now × (sixteen.old ≡ replicate 16 0) }
    ensures { sixteen.new
        ≡ reached_counts w labels.now counts.now noted.now
        (length counts.now) }
{
    for (v, count) in counts.iter().enumerate() {
        let row = rows::part::row_part(labels, w, v, *count as usize);
        let joins = by_rank::reach(noted, row);
        raise(sixteen, joins);
    }
}

// The question on numbers: the records' frames.
pub fn sixteen_of(
    n: usize,
    w: usize,
    labels: &[Entry],
    counts: &[u32],
    frames: &[u32],
) -> Result<[u64; 16], Refusal>
    ensures { result ≡ sixteen_of n w labels.now counts.now frames.now }
{
    tests::check_sixteen(n, w, labels, counts, frames)?;
    let mut noted = [by_rank::APART; 4096];
    note_all(w, labels, counts, frames, &mut noted);
    let mut sixteen = [0u64; 16];
    count_all(w, labels, counts, &noted, &mut sixteen);
    Ok(sixteen)
}

// The question on records taken apart.
pub fn sixteen_listed(
    n: usize,
    w: usize,
    labels: &[Entry],
    counts: &[u32],
    listed: Listed,
) -> Result<[u64; 16], Refusal>
    ensures { result ≡ sixteen_of n w labels.now counts.now (frames_in listed) }
{
    let count = listed.count;
    if tests::MOST_TARGETS < count {
        return Err(Reason::Size.at(0));
    }
    let frames = listed.frames;
    sixteen_of(n, w, labels, counts, &frames[0..count])
}

// The question on records.
pub fn sixteen(
    n: usize,
    w: usize,
    labels: &[Entry],
    counts: &[u32],
    targets: &[Target],
) -> Result<[u64; 16], Refusal>
    ensures { (result
        ≡ sixteen_of n w labels.now counts.now
        (frames_of targets.now))
        × (sixteen_told result
        ≡ sixteen_told
        (sixteen_of n w labels.now counts.now
        (frames_of targets.now))) }
{
    sixteen_listed(n, w, labels, counts, record::take_apart(targets))
}
