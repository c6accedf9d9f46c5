// Nearest target: the place of the record with the fewest joins from the asked frame. The asked frame's row is noted by rank,
// and each record's row is read against it.
ghost use Rattle.std.specs.Prelude.{◌≡◌, Ok};
ghost use Rattle.targets.specs.Inner.{RowsKnown, first_reached, frames_in};
ghost use Rattle.targets.specs.Nearest.{nearest_of, nearest_told};
ghost use Rattle.targets.specs.Targets.{frames_of};

use crate::record::{Listed, Target};
use crate::{by_rank, record, tests};
use entry::Entry;
use refusal::{Reason, Refusal};

// The first record of fewest joins to what is noted, where any has less than `APART`.
fn first_reached(
    w: usize,
    labels: &[Entry],
    counts: &[u32],
    frames: &[u32],
    noted: &[u16],
) -> Option<usize>
    requires { RowsKnown w labels.now counts.now frames.now noted.now }
    ensures { Ok result ≡ first_reached w labels.now counts.now frames.now noted.now }
{
    let mut fewest = by_rank::APART as usize;
    let mut place: usize = 0;
    for (i, named) in frames.iter().enumerate() {
        let frame = *named as usize;
        let row = rows::part::row_part(labels, w, frame, counts[frame] as usize);
        let joins = by_rank::reach(noted, row);
        if joins < fewest {
            fewest = joins;
            place = i;
        }
    }
    if fewest < by_rank::APART as usize {
        return Some(place);
    }
    None
}

// The question on numbers: the records' frames.
pub fn nearest_of(
    n: usize,
    w: usize,
    labels: &[Entry],
    counts: &[u32],
    asked: usize,
    frames: &[u32],
) -> Result<Option<usize>, Refusal>
    ensures { result ≡ nearest_of n w labels.now counts.now asked frames.now }
{
    tests::check_nearest(n, w, labels, counts, asked, frames)?;
    let mut noted = [by_rank::APART; 4096];
    by_rank::note(
        rows::part::row_part(labels, w, asked, counts[asked] as usize),
        &mut noted,
    );
    Ok(first_reached(w, labels, counts, frames, &noted))
}

// The question on records taken apart.
pub fn nearest_listed(
    n: usize,
    w: usize,
    labels: &[Entry],
    counts: &[u32],
    asked: usize,
    listed: Listed,
) -> Result<Option<usize>, Refusal>
    ensures { result ≡ nearest_of n w labels.now counts.now asked (frames_in listed) }
{
    let count = listed.count;
    if tests::MOST_TARGETS < count {
        return Err(Reason::Size.at(0));
    }
    let frames = listed.frames;
    nearest_of(n, w, labels, counts, asked, &frames[0..count])
}

// The question on records.
pub fn nearest(
    n: usize,
    w: usize,
    labels: &[Entry],
    counts: &[u32],
    asked: usize,
    targets: &[Target],
) -> Result<Option<usize>, Refusal>
    ensures { (result
        ≡ nearest_of n w labels.now counts.now asked
        (frames_of targets.now))
        × (nearest_told result
        ≡ nearest_told
        (nearest_of n w labels.now counts.now asked
        (frames_of targets.now))) }
{
    nearest_listed(n, w, labels, counts, asked, record::take_apart(targets))
}
