// The parts of the writer: the tests that stand before it, the bytes that the file has, and the file put into a stretch
// that is just as long.
ghost use Rattle.std.specs.Prelude.{◌≡◌};
ghost use Rattle.file.specs.Writer.{index_sizes, out_fits};

use crate::rooms;
use entry::Entry;
use fields::put::Sheet;
use fields::widths;
use links::check_order;
use refusal::sizes::sizes_fit;
use refusal::{Reason, Refusal, test};
use rows::check::check_rows;
use rows::rooms::total;

// Whether n, W and k are in range.
pub fn index_sizes(n: usize, w: usize, k: usize) -> bool
    ensures { result ≡ index_sizes n w k }
{
    sizes_fit(n, w) && k <= n
}

// Whether an output room has the file's bytes from `start` on.
pub fn out_fits(room: usize, start: usize, size: usize) -> bool
    ensures { result ≡ out_fits room start size }
{
    start <= room && size <= room - start
}

// An index as it lies in the rooms lent.
#[derive(Clone, Copy)]
pub struct Lent<'a> {
    pub n: usize,
    pub w: usize,
    pub k: usize,
    pub order: &'a [u32],
    pub labels: &'a [Entry],
    pub counts: &'a [u32],
}

impl Lent<'_> {
    ghost use Rattle.std.specs.Prelude.{◌≡◌, ◌≤◌, length};
    ghost use Rattle.basics.specs.Places.{sum};
    ghost use Rattle.fields.specs.Layout.{file_of, file_size};
    ghost use Rattle.file.specs.Writer.{write_tests};
    ghost use Rattle.file.specs.Inner.{Fit};

    // The tests on the index: 1, 2, 5, and 9 with the bound k.
    pub fn tests(self) -> Result<(), Refusal>
        ensures { result
            ≡ write_tests self.entry.n self.entry.w self.entry.k self.entry.order.now self.entry.labels.now
            self.entry.counts.now }
    {
        test(index_sizes(self.n, self.w, self.k), Reason::Size, 0)?;
        let lengths = rooms::lengths_fit(
            self.n,
            self.w,
            self.order.len(),
            self.labels.len(),
            self.counts.len(),
        );
        test(lengths, Reason::Length, 0)?;
        check_order(self.n, self.order)?;
        check_rows(self.n, self.w, self.k, self.labels, self.counts)
    }

    // The bytes that the file has: 4 for the header, and 21 bits for each frame and 24 for each entry, rounded up.
    pub fn size(self) -> usize
        requires { (self.n ≤ 4096) × (length self.counts.now ≤ 4096) }
        ensures { result ≡ file_size self.entry.n (sum self.entry.counts.now) }
    {
        let bits = widths::EACH_FRAME_BITS * self.n + widths::ENTRY_BITS * total(self.counts);
        widths::HEADER_BYTES + (bits + 7) / 8
    }

    // Puts the whole file into a stretch of just its length.
    pub fn fill(self, out: &mut [u8])
        requires { Fit self.n self.w self.k self.order.now self.labels.now self.counts.now
            × (length out.old ≡ length (file_of self.n self.w self.k self.order.now self.labels.now self.counts.now)) }
        ensures { out.new
            ≡ file_of self.entry.n self.entry.w self.entry.k self.entry.order.now self.entry.labels.now
            self.entry.counts.now }
    {
        let mut sheet = Sheet::new(out);
        sheet.put_header(self.n, self.k);
        sheet.put_order(self.order);
        sheet.put_rows(self.n, self.w, self.labels, self.counts);
        sheet.close();
    }
}
