// The index file: the writer, the header alone, and the reader.
ghost use Rattle.std.specs.Prelude.{◌≡◌, [], ◌∷◌};
ghost use Rattle.file.specs.Writer.{write_of};
ghost use Rattle.file.specs.Reader.{opened_told, header_of, read_of};
ghost use Rattle.capi.specs.Outs.{outs, tells, write_outs, read_outs};

use entry::Entry;

// The writer: `bytes` is how many bytes of the output room it filled.
#[unsafe(no_mangle)]
pub extern "C" fn seam_write(
    n: usize,
    w: usize,
    k: usize,
    order: &[u32],
    labels: &[Entry],
    counts: &[u32],
    out: &mut [u8],
    start: usize,
    bytes: &mut u64,
    place: &mut u64,
) -> u32
    ensures { outs (tells result place.new (bytes.new ∷ [])) (out.new ∷ [])
        ≡ write_outs
        (write_of n w k order.now labels.now counts.now
        out.old start) }
{
    capi::file_calls::seam_write(n, w, k, order, labels, counts, out, start, bytes, place)
}

// The header alone.
#[unsafe(no_mangle)]
pub extern "C" fn seam_header(bytes: &[u8], n: &mut u64, k: &mut u64, place: &mut u64) -> u32
    ensures { tells result place.new (n.new ∷ k.new ∷ [])
        ≡ opened_told (header_of bytes.now) }
{
    capi::file_calls::seam_header(bytes, n, k, place)
}

// The reader.
#[unsafe(no_mangle)]
pub extern "C" fn seam_read(
    bytes: &[u8],
    w: usize,
    order: &mut [u32],
    labels: &mut [Entry],
    counts: &mut [u32],
    n: &mut u64,
    k: &mut u64,
    place: &mut u64,
) -> u32
    ensures { outs (tells result place.new (n.new ∷ k.new ∷ []))
        (order.new ∷ labels.new ∷ counts.new ∷ [])
        ≡ read_outs
        (read_of bytes.now w order.old labels.old
        counts.old) }
{
    capi::file_calls::seam_read(bytes, w, order, labels, counts, n, k, place)
}
