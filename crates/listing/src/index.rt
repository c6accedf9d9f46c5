// From a file's bytes to the text: the header, the test on the frames, the reader on rooms of just that length, the lines.
ghost use Rattle.std.specs.Prelude.{◌≡◌, ◌*◌, ◌≤◌, length};
ghost use Rattle.refusal.specs.Tests.{fine};
ghost use Rattle.rows.specs.Rooms.{check_rows};
ghost use Rattle.file.specs.Reader.{read_test, opened_told};
ghost use Rattle.listing.specs.Inner.{PutText, Cut};
ghost use Rattle.listing.specs.Lines.{WIDTH as width, MOST, LONGEST};
ghost use Rattle.listing.specs.Listing.{listing_of, read_text, index_text};

use crate::{FRAMES, WIDTH, lines};
use entry::Entry;
use file::Index;
use refusal::{Reason, Refusal};
use rows::rooms::total;
use rows::spread::spread;

// The number of a refusal, 0 of an index.
#[tactic(auto, unfolding(file::specs::Reader::opened_told))]
fn number_of(opened: Result<Index, Refusal>) -> u32
    ensures { result ≡ (opened_told opened).number }
{
    match opened {
        Ok(_) => 0,
        Err(refusal) => refusal.number(),
    }
}

// The text of a file: `refused` at a faulty header, then at more than 256 frames, then by the reader.
pub fn open(
    bytes: &[u8],
    order: &mut [u32],
    labels: &mut [Entry],
    counts: &mut [u32],
    out: &mut [u8],
) -> usize
    requires order_len { (length order.old ≡ MOST)
        × (length labels.old ≡ MOST * width)
        × (length counts.old ≡ MOST) }
    requires in_bounds { LONGEST ≤ length out.old }
    ensures put { PutText out.old 0 (listing_of bytes.now) out.new result }
    ensures near { result ≤ LONGEST }
{
    let opened = file::header(bytes);
    let Ok(Index { n, .. }) = opened else {
        return lines::refused(out, number_of(opened));
    };
    if FRAMES < n {
        return lines::refused(out, Reason::Size as u32);
    }
    let label_places = n * WIDTH;
    read(
        bytes,
        &mut order[..n],
        &mut labels[..label_places],
        &mut counts[..n],
        out,
    )
}

// The text of a file whose header gives as many frames as the rooms are for.
fn read(
    bytes: &[u8],
    order: &mut [u32],
    labels: &mut [Entry],
    counts: &mut [u32],
    out: &mut [u8],
) -> usize
    requires cut { Cut order.old labels.old counts.old }
    requires in_bounds { LONGEST ≤ length out.old }
    ensures put { PutText out.old 0
        (read_text (read_test bytes.now width (length order.old)
        (length labels.old) (length counts.old)) bytes.now)
        out.new result }
    ensures near { result ≤ LONGEST }
{
    let opened = file::read(bytes, WIDTH, order, labels, counts);
    let Ok(Index { n, k }) = opened else {
        return lines::refused(out, number_of(opened));
    };
    show(n, k, order, labels, counts, out)
}

// The text of an index. The reader vouches for its rows, so the spread question refuses none.
fn show(
    n: usize,
    k: usize,
    order: &[u32],
    labels: &[Entry],
    counts: &[u32],
    out: &mut [u8],
) -> usize
    requires cut { Cut order.now labels.now counts.now }
    requires counts_value { check_rows n width n labels.now counts.now ≡ fine }
    requires in_bounds { LONGEST ≤ length out.old }
    ensures put { PutText out.old 0
        (index_text n k order.now labels.now counts.now)
        out.new result }
    ensures near { result ≤ LONGEST }
{
    let spread = spread(n, WIDTH, labels, counts).unwrap_or(0);
    let entries = total(counts);
    let at = lines::head(out, n, k, entries, spread);
    lines::lines(out, at, order, labels, counts)
}
