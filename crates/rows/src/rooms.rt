// The tests 1 and 2 on a label room and a count room: n from 1 to 4,096, W from 1 to 256, n * W labels, n counts; and the
// sum of a count room.
ghost use Rattle.std.specs.Prelude.{◌≡◌, ◌*◌, ◌≤◌};
ghost use Rattle.refusal.specs.Told.{verdict_told};
ghost use Rattle.refusal.specs.Sizes.{most_frames};
ghost use Rattle.rows.specs.Rooms.{room_tests, total_of};

use entry::Entry;
use refusal::{Reason, Refusal, test};

// 1 and 2 for a label room and a count room.
pub fn check_rooms(n: usize, w: usize, labels: &[Entry], counts: &[u32]) -> Result<(), Refusal>
    ensures answer { result ≡ room_tests n w labels.now counts.now }
    ensures numbers { verdict_told result ≡ verdict_told (room_tests n w labels.now counts.now) }
{
    test(refusal::sizes::sizes_fit(n, w), Reason::Size, 0)?;
    test(
        labels.len() == n * w && counts.len() == n,
        Reason::Length,
        0,
    )
}

// The sum of all counts; 0 for a room of over 4,096, which no index has.
pub fn total(counts: &[u32]) -> usize
    ensures { (result ≡ total_of counts.now) × (result ≤ most_frames * 4294967296) }
{
    if refusal::sizes::MOST_FRAMES < counts.len() {
        return 0;
    }
    counts.iter().map(|count| *count as usize).sum()
}
