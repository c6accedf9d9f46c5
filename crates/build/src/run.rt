// The walks of the first k hubs in rank order, over cleared rooms, up to the first that is refused.
ghost use Rattle.std.specs.Prelude.{◌≡◌, length, replicate};
ghost use Rattle.refusal.specs.Sizes.{most_frames};
ghost use Rattle.walk.specs.Inner.{lacking};
ghost use Rattle.build.specs.Inner.{RunIn, RunOut, refusal_of};

use entry::Entry;
use refusal::{Reason, Refusal};
use walk::{LACKING, Lists, Unmade, walk};

// What a walk of this rank makes of the build where it is not made: ROOM at the rank, FAR at 0.
#[tactic(auto, unfolding(crate::specs::Inner::refusal_of))]
pub fn refusal_of(unmade: Unmade, rank: usize) -> Refusal
    ensures { result ≡ refusal_of unmade rank }
{
    match unmade {
        Unmade::Full => Reason::Room.at(rank),
        Unmade::Far => Reason::Far.at(0),
    }
}

// The walks of the ranks below k. Rows and counts are then the rule's at the rank where it stopped.
pub fn run(
    w: usize,
    k: usize,
    starts: &[u32],
    places: &[u32],
    order: &[u32],
    labels: &mut [Entry],
    counts: &mut [u32],
    met: &mut [u32],
    queue: &mut [u32],
    noted: &mut [u32],
) -> Result<(), Refusal>
    requires { RunIn (length counts.old) w k starts.now places.now order.now labels.old
        counts.old met.old queue.old
        noted.old }
    ensures { RunOut (length counts.old) w k starts.now places.now
        order.now result
        labels.new counts.new met.new queue.new }
{
    let lists = Lists { starts, places };
    for (rank, &hub) in order[..k].iter().enumerate() {
        let made = walk(
            lists,
            w,
            rank,
            labels,
            counts,
            hub as usize,
            met,
            queue,
            noted,
        );
        if let Err(unmade) = made {
            return Err(refusal_of(unmade, rank));
        }
    }
    Ok(())
}

// The same, with the notes of the hub's row that the walks share: `LACKING` at every rank.
pub fn walks(
    w: usize,
    k: usize,
    starts: &[u32],
    places: &[u32],
    order: &[u32],
    labels: &mut [Entry],
    counts: &mut [u32],
    met: &mut [u32],
    queue: &mut [u32],
) -> Result<(), Refusal>
    requires { RunIn (length counts.old) w k starts.now places.now order.now labels.old
        counts.old met.old queue.old
        (replicate most_frames lacking) }
    ensures { RunOut (length counts.old) w k starts.now places.now
        order.now result
        labels.new counts.new met.new queue.new }
{
    let mut noted = [LACKING; 4096];
    run(
        w, k, starts, places, order, labels, counts, met, queue, &mut noted,
    )
}

#[cfg(test)]
mod tests {
    use super::*;

    // The chain 0-1-2-3: the neighbours of each frame.
    #[test]
    fn lists_of_a_chain(rt: HostRuntime) {
        let starts = [0, 1, 3, 5, 6];
        let places = [1, 0, 2, 1, 3, 2];
        let lists = Lists {
            starts: &starts,
            places: &places,
        };
        assert_eq!(rt; lists.list(0), [1].as_slice());
        assert_eq!(rt; lists.list(1), [0, 2].as_slice());
        assert_eq!(rt; lists.list(2), [1, 3].as_slice());
        assert_eq!(rt; lists.list(3), [2].as_slice());
    }
}
