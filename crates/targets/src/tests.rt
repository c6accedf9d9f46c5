// The tests of the questions on targets: the rooms and the number of records, the records' frames, then their rows.
ghost use Rattle.std.specs.Prelude.{◌≡◌, ◌≤◌, length, get_or};
ghost use Rattle.refusal.specs.Tests.{tests_from};
ghost use Rattle.rows.specs.Rooms.{row_test};
ghost use Rattle.rows.specs.Inner.{Rooms};
ghost use Rattle.targets.specs.Inner.{FramesIn};
ghost use Rattle.targets.specs.Nearest.{nearest_tests};
ghost use Rattle.targets.specs.Sixteen.{sixteen_tests};
ghost use Rattle.targets.specs.Targets.{records_test, target_rooms};

use entry::Entry;
use refusal::{Reason, Refusal, test};
use rows::check::{check_row, check_rows};
use rows::rooms::check_rooms;

// The most records.
pub const MOST_TARGETS: usize = 16;

// 1 and 2: the sizes, the number of records among them, and the lengths.
pub fn check_target_rooms(
    n: usize,
    w: usize,
    labels: &[Entry],
    counts: &[u32],
    frames: &[u32],
) -> Result<(), Refusal>
    ensures { result ≡ target_rooms n w labels.now counts.now frames.now }
{
    test(frames.len() <= MOST_TARGETS, Reason::Size, 0)?;
    check_rooms(n, w, labels, counts)
}

// 8 for the records, in list order: the record's place plus one.
pub fn check_records(n: usize, frames: &[u32]) -> Result<(), Refusal>
    requires { length frames.now ≤ 16 }
    ensures { result ≡ records_test n frames.now }
{
    for (i, frame) in frames.iter().enumerate() {
        test((*frame as usize) < n, Reason::Frame, i + 1)?;
    }
    Ok(())
}

// 9 for the records' rows, in list order.
pub fn check_record_rows(
    n: usize,
    w: usize,
    labels: &[Entry],
    counts: &[u32],
    frames: &[u32],
) -> Result<(), Refusal>
    requires { Rooms n w labels.now counts.now × FramesIn n frames.now }
    ensures { result
        ≡ tests_from
        (λ i. row_test n w n labels.now counts.now (get_or frames.now i 0))
        0
        (length frames.now) }
{
    for frame in frames {
        check_row(n, w, labels, counts, *frame as usize)?;
    }
    Ok(())
}

// 1, 2, 8 for the asked frame, 8 for the records, 9 for the asked frame, then for the records.
pub fn check_nearest(
    n: usize,
    w: usize,
    labels: &[Entry],
    counts: &[u32],
    asked: usize,
    frames: &[u32],
) -> Result<(), Refusal>
    ensures { result
        ≡ nearest_tests n w labels.now counts.now asked frames.now }
{
    check_target_rooms(n, w, labels, counts, frames)?;
    test(asked < n, Reason::Frame, 0)?;
    check_records(n, frames)?;
    check_row(n, w, labels, counts, asked)?;
    check_record_rows(n, w, labels, counts, frames)
}

// 1, 2, 8 for the records, 9 with the lowest frame of all.
pub fn check_sixteen(
    n: usize,
    w: usize,
    labels: &[Entry],
    counts: &[u32],
    frames: &[u32],
) -> Result<(), Refusal>
    ensures { result ≡ sixteen_tests n w labels.now counts.now frames.now }
{
    check_target_rooms(n, w, labels, counts, frames)?;
    check_records(n, frames)?;
    check_rows(n, w, n, labels, counts)
}
