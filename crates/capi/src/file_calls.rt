// The index file: the writer, the header alone, and the reader.
ghost use Rattle.std.specs.Prelude.{◌≡◌, [], ◌∷◌};
ghost use Rattle.file.specs.Writer.{write_of};
ghost use Rattle.file.specs.Reader.{opened_told, header_of, read_of};
ghost use Rattle.capi.specs.Outs.{outs, tells, write_outs, read_outs};

use crate::tell::told;
use entry::Entry;
use file::Index;
use refusal::Refusal;

// The writer: `bytes` is how many bytes of the output room it filled.
pub fn seam_write(
    n: usize,
    w: usize,
    k: usize,
    order: &[u32],
    labels: &[Entry],
    counts: &[u32],
    out: &mut [u8],
    start: usize,
    bytes: &mut u64,
    place: &mut u64,
) -> u32
    ensures { outs (tells result place.new (bytes.new ∷ [])) (out.new ∷ [])
        ≡ write_outs
        (write_of n w k order.now labels.now counts.now
        out.old start) }
{
    let written = file::write(n, w, k, order, labels, counts, out, start);
    *bytes = written.unwrap_or(0) as u64;
    told(&written, place)
}

// What opening a file gave: n and k, or the number and place of its refusal.
fn opened(answer: Result<Index, Refusal>, n: &mut u64, k: &mut u64, place: &mut u64) -> u32
    ensures { tells result place.new (n.new ∷ k.new ∷ []) ≡ opened_told answer }
{
    let index = answer.unwrap_or(Index { n: 0, k: 0 });
    *n = index.n as u64;
    *k = index.k as u64;
    told(&answer, place)
}

// The header alone.
pub fn seam_header(bytes: &[u8], n: &mut u64, k: &mut u64, place: &mut u64) -> u32
    ensures { tells result place.new (n.new ∷ k.new ∷ [])
        ≡ opened_told (header_of bytes.now) }
{
    opened(file::header(bytes), n, k, place)
}

// The reader.
pub fn seam_read(
    bytes: &[u8],
    w: usize,
    order: &mut [u32],
    labels: &mut [Entry],
    counts: &mut [u32],
    n: &mut u64,
    k: &mut u64,
    place: &mut u64,
) -> u32
    ensures { outs (tells result place.new (n.new ∷ k.new ∷ []))
        (order.new ∷ labels.new ∷ counts.new ∷ [])
        ≡ read_outs
        (read_of bytes.now w order.old labels.old
        counts.old) }
{
    opened(file::read(bytes, w, order, labels, counts), n, k, place)
}
