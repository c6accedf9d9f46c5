// The index file: bit-packed fields, most significant first.
#![tactic(auto)]

mod check;
mod rooms;
mod step;
mod store;
mod writer;

ghost use Rattle.std.specs.Prelude.{◌≡◌};
ghost use Rattle.file.specs.Writer.{write_outcome, write_of};
ghost use Rattle.file.specs.Reader.{header_of, read_outcome, read_of, opened_told};

use entry::Entry;
use fields::widths;
use refusal::{Reason, Refusal, test};
use writer::{Lent, out_fits};

// What the header of an index file gives: n frames and stop k.
#[derive(Clone, Copy, Debug, PartialEq, Eq)]
pub struct Index {
    pub n: usize,
    pub k: usize,
}

// Writes the index file into a stretch of the output room from byte `start` on; bytes outside the stretch stay.
pub fn write(
    n: usize,
    w: usize,
    k: usize,
    order: &[u32],
    labels: &[Entry],
    counts: &[u32],
    out: &mut [u8],
    start: usize,
) -> Result<usize, Refusal>
    ensures { write_outcome result out.new
        ≡ write_of n w k order.now labels.now counts.now
        out.old start }
{
    let index = Lent {
        n,
        w,
        k,
        order,
        labels,
        counts,
    };
    index.tests()?;
    let size = index.size();
    test(out_fits(out.len(), start, size), Reason::Out, 0)?;
    let end = start + size;
    index.fill(&mut out[start..end]);
    Ok(size)
}

// The header alone: n and k, or the very refusal that the reader gives. Stops up to n are legal, and no spare bits but 0.
pub fn header(bytes: &[u8]) -> Result<Index, Refusal>
    ensures given { result ≡ header_of bytes.now }
    ensures said { opened_told result ≡ opened_told (header_of bytes.now) }
{
    let version = step::value(bytes, 0, widths::VERSION_BITS)?;
    test(version == widths::VERSION_VALUE, Reason::Version, 0)?;
    let n = step::value(bytes, widths::FRAMES_BIT, widths::FRAMES_BITS)? + 1;
    let k = step::field(bytes, widths::STOP_BIT, widths::STOP_BITS, n + 1)?;
    step::field(bytes, widths::SPARE_BIT, widths::SPARE_BITS, 1)?;
    Ok(Index { n, k })
}

// The reader: tests the whole file before it stores anything; then fills the order room, the label room and the count
// room, and hands back n and k. On a refusal every room is as lent.
pub fn read(
    bytes: &[u8],
    w: usize,
    order: &mut [u32],
    labels: &mut [Entry],
    counts: &mut [u32],
) -> Result<Index, Refusal>
    ensures given { read_outcome result order.new labels.new counts.new
        ≡ read_of bytes.now w order.old labels.old
        counts.old }
    ensures said { opened_told result
        ≡ opened_told (read_of bytes.now w order.old labels.old
        counts.old).answer }
{
    let index = check::file(bytes, w, order.len(), labels.len(), counts.len())?;
    store::order(bytes, order);
    store::rows(bytes, w, labels, counts);
    Ok(index)
}
