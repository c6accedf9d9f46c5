// The meeting of two rows: the shared rank of the least sum of joins, the lowest such rank first. One pass over both rows;
// their ranks rise, so that the lesser of two ranks stands in one row alone. Which row goes on is not foreseeable, so that
// a turn has one path: each row's step and the lesser meeting are chosen, not branched to.
ghost use Rattle.std.specs.Prelude.{◌≡◌, ◌+◌, ◌≤◌};
ghost use Rattle.rows.specs.Inner.{lesser_by, turn_of, Rises};
ghost use Rattle.rows.specs.Meetings.{meeting_of};

use entry::{Entry, joins_of, rank_of};

// Above every sum of the joins of two entries: no meeting. With an `Option` and a `match` on `cmp` the merge takes twice as long.
pub const NO_SUM: usize = 2 * entry::RANK_STEP_WIDE;

// A rank that is in both rows, and the sum of its joins.
#[derive(Clone, Copy, Debug, PartialEq, Eq)]
pub struct Meeting {
    pub rank: usize,
    pub sum: usize,
}

// What two entries make: their meeting, whose sum is `NO_SUM` where their ranks are not one, and how far each row goes on, past
// an entry whose rank is not above the other's.
#[derive(Clone, Copy)]
pub struct Turn {
    pub meeting: Meeting,
    pub first: usize,
    pub second: usize,
}

impl Turn {
    pub fn of(e: Entry, f: Entry) -> Turn
        ensures turn { result ≡ turn_of e f }
        ensures past { (result.first ≤ 1) × (result.second ≤ 1) × (1 ≤ result.first + result.second) }
    {
        let rank = rank_of(e);
        let other = rank_of(f);
        let sum = if rank == other {
            joins_of(e) + joins_of(f)
        } else {
            NO_SUM
        };
        Turn {
            meeting: Meeting { rank, sum },
            first: usize::from(rank <= other),
            second: usize::from(other <= rank),
        }
    }
}

// The meeting of the lesser sum; of two equal sums the earlier stays, which has the lower rank. By a derived order's `min`, which
// holds the ranks against each other too, the merge takes a twentieth longer.
fn lesser(least: Meeting, meeting: Meeting) -> Meeting
    ensures { result ≡ lesser_by least meeting }
{
    if meeting.sum < least.sum {
        meeting
    } else {
        least
    }
}

// The best meeting of two rows.
pub fn merge(a: &[Entry], b: &[Entry]) -> Option<Meeting>
    requires { Rises a.now × Rises b.now }
    ensures { result ≡ meeting_of a.now b.now }
{
    let mut least = Meeting {
        rank: 0,
        sum: NO_SUM,
    };
    let mut i = 0;
    let mut j = 0;
    // Two cursors that move by what they meet: no iterator goes so, and by slices that shrink a turn takes a fifth longer.
    while i < a.len() && j < b.len() {
        let turn = Turn::of(a[i], b[j]);
        least = lesser(least, turn.meeting);
        i += turn.first;
        j += turn.second;
    }
    (least.sum < NO_SUM).then_some(least)
}
