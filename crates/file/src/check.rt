// The tests on the fields behind the header, in bit order. Nothing is stored here but which frames the order has had.
ghost use Rattle.std.specs.Prelude.{◌+◌, ◌*◌, ◌/◌, ◌^◌, ◌≤◌, ◌<◌, ◌≡◌, length};
ghost use Rattle.file.specs.Reader.{frames_of, stop_of, read_test, opened};
ghost use Rattle.file.specs.Inner.{Rises};

use crate::step::{field, field_in_four};
use crate::{Index, rooms};
use fields::{get, widths};
use refusal::sizes::width_fits;
use refusal::{Reason, Refusal, test};

// A file as it is tested: its bytes, which have a header, the frames and the stop that this gives, and the width of the call.
#[derive(Clone, Copy)]
pub struct Reading<'a> {
    bytes: &'a [u8],
    n: usize,
    w: usize,
    k: usize,
    ghost few: { n ≤ 4096 },
    ghost long: { 4 ≤ length bytes.now },
}

impl Reading<'_> {
    ghost use Rattle.std.specs.Prelude.{◌+◌, ◌-◌, ◌^◌, ◌≤◌, ◌<◌, ◌≡◌, length};
    ghost use Rattle.fields.specs.Bits.{field_at, byte_len};
    ghost use Rattle.fields.specs.Layout.{rank_bits};
    ghost use Rattle.file.specs.Reader.{frame_at, order_field_test, order_from, entry_test, low_at, entries_from, row_fields_test, bit_behind, row_bit, rows_from, end_test, body_test};
    ghost use Rattle.file.specs.Inner.{step};
    ghost use Rattle.links.specs.Inner.{Seen};
    ghost use Rattle.refusal.specs.Tests.{fine};

    // The order field of rank r; `seen` has the frames that stand at lower ranks.
    pub fn order_field(self, r: usize, seen: &mut [bool]) -> Result<(), Refusal>
        requires { (r < self.n) × Seen (frame_at self.bytes.now) seen.old r }
        ensures found { result ≡ order_field_test self.entry.bytes.now self.entry.n r }
        ensures noted { order_field_test self.entry.bytes.now self.entry.n r ≡ fine → Seen
            (frame_at self.entry.bytes.now) seen.new (r + 1) }
    {
        let p = widths::HEADER_BITS + widths::FRAME_BITS * r;
        let frame = field_in_four(self.bytes, p, widths::FRAME_BITS, self.n)?;
        test(!seen[frame], Reason::Field, p)?;
        seen[frame] = true;
        Ok(())
    }

    // All order fields.
    pub fn order(self) -> Result<(), Refusal>
        ensures { result ≡ order_from self.entry.bytes.now self.entry.n 0 self.entry.n }
    {
        let mut seen = [false; 4096];
        for r in 0..self.n {
            self.order_field(r, &mut seen)?;
        }
        Ok(())
    }

    // One entry at bit p, field by field: its rank, which is `low` or more, or the refusal.
    pub fn entry_fields(self, p: usize, low: usize) -> Result<usize, Refusal>
        requires { p < 2 ^ 30 }
        ensures { result
            ≡ step (entry_test self.entry.bytes.now self.entry.n self.entry.k p low)
            (field_at self.entry.bytes.now p rank_bits) }
    {
        let rank = field(self.bytes, p, widths::RANK_BITS, self.k)?;
        test(low <= rank, Reason::Field, p)?;
        field(
            self.bytes,
            p + widths::RANK_BITS,
            widths::JOINS_BITS,
            self.n,
        )?;
        Ok(rank)
    }

    // The same, both fields at once where the bytes are there; what is not legal is found again field by field.
    pub fn entry(self, p: usize, low: usize) -> Result<usize, Refusal>
        requires { p < 2 ^ 30 }
        ensures { result
            ≡ step (entry_test self.entry.bytes.now self.entry.n self.entry.k p low)
            (field_at self.entry.bytes.now p rank_bits) }
    {
        let end = p / 8 + 4;
        if end <= self.bytes.len() {
            let both = get::four(self.bytes, p);
            let rank = both / widths::JOINS_VALUES;
            let joins = both % widths::JOINS_VALUES;
            if low <= rank && rank < self.k && joins < self.n {
                return Ok(rank);
            }
        }
        self.entry_fields(p, low)
    }

    // The entries of a row, from bit p on: in one go where it claims at most k of them and four bytes are there for each, then one by
    // one from the first that is not seen to be legal; where a rank of k or more was passed over, all of them one by one.
    pub fn entries(self, p: usize, count: usize) -> Result<(), Refusal>
        requires { (p < 2 ^ 29) × (count ≤ 256) }
        ensures { result ≡ entries_from self.entry.bytes.now self.entry.n self.entry.k p 0 count }
    {
        if self.k < count || self.bytes.len() <= p / 8 + widths::ENTRY_BYTES * count {
            return self.entries_behind(p, 0, count, 0);
        }
        let (i, low) = rising(self.bytes, self.n, p, count);
        if self.k < low {
            return self.entries_behind(p, 0, count, 0);
        }
        if i < count {
            return self.entries_behind(p, i, count, low);
        }
        Ok(())
    }

    // The entries of a row from entry i on, one by one; `first` is one above the rank before it.
    #[inline(never)]
    pub fn entries_behind(
        self,
        p: usize,
        i: usize,
        count: usize,
        first: usize,
    ) -> Result<(), Refusal>
        requires { (p < 2 ^ 29) × (i ≤ count) × (count ≤ 256) × (first ≡ low_at self.bytes.now p i) }
        ensures { result
            ≡ entries_from self.entry.bytes.now self.entry.n self.entry.k p i (count - i) }
    {
        let mut low = first;
        for j in i..count {
            low = self.entry(p + widths::ENTRY_BITS * j, low)? + 1;
        }
        Ok(())
    }

    // The row of frame v at bit p: the bit behind it, or the refusal.
    pub fn row(self, v: usize, p: usize) -> Result<usize, Refusal>
        requires { p < 2 ^ 28 }
        ensures { result
            ≡ step (row_fields_test self.entry.bytes.now self.entry.n self.entry.w self.entry.k v p)
            (bit_behind self.entry.bytes.now p) }
    {
        let count = field_in_four(self.bytes, p, widths::COUNT_BITS, widths::LEGAL_COUNTS)?;
        test(count <= self.w, Reason::Room, v)?;
        let bit = p + widths::COUNT_BITS;
        self.entries(bit, count)?;
        Ok(bit + widths::ENTRY_BITS * count)
    }

    // All rows: the bit behind them, or the refusal.
    pub fn rows(self) -> Result<usize, Refusal>
        ensures { result
            ≡ step (rows_from self.entry.bytes.now self.entry.n self.entry.w self.entry.k 0 self.entry.n)
            (row_bit self.entry.bytes.now self.entry.n self.entry.n) }
    {
        let mut p = widths::HEADER_BITS + widths::FRAME_BITS * self.n;
        for v in 0..self.n {
            p = self.row(v, p)?;
        }
        Ok(p)
    }

    // The end of the layout at bit p: its fill bits, and that no byte follows.
    pub fn end(self, p: usize) -> Result<(), Refusal>
        requires { (p < 2 ^ 29) × (byte_len p ≤ length self.bytes.now) }
        ensures { result ≡ end_test self.entry.bytes.now p }
    {
        let used = (p + 7) / 8;
        let fill = get::get(self.bytes, p, 8 * used - p);
        test(fill == 0, Reason::Field, p)?;
        test(self.bytes.len() <= used, Reason::Long, used)
    }

    // Everything behind the header.
    pub fn body(self) -> Result<(), Refusal>
        requires { 4 ≤ length self.bytes.now }
        ensures { result ≡ body_test self.entry.bytes.now self.entry.n self.entry.w self.entry.k }
    {
        self.order()?;
        self.end(self.rows()?)
    }
}

// How many of `count` entries from bit p on, counted from the first, have rising ranks and joins below n, and one above the last
// one's rank: that is the highest, and held against k by who calls. Entries are whole bytes apart, so that each begins as far into
// its byte as the first.
#[inline(never)]
pub fn rising(bytes: &[u8], n: usize, p: usize, count: usize) -> (usize, usize)
    requires { (p < 2 ^ 29) × (count ≤ 256) × (p / 8 + 3 * count < length bytes.now) }
    ensures { Rises bytes.now n p count result.0 result.1 }
{
    let at = p / 8;
    let past = p % 8;
    let mut low: usize = 0;
    for i in 0..count {
        let both = get::four_from(
            bytes,
            at + widths::ENTRY_BYTES * i,
            past,
            widths::ENTRY_BITS,
        );
        let rank = both / widths::JOINS_VALUES;
        if rank < low || n <= both % widths::JOINS_VALUES {
            return (i, low);
        }
        low = rank + 1;
    }
    (count, low)
}

// The whole file against a width and the lengths of three rooms: n and k, or the refusal.
pub fn file(
    bytes: &[u8],
    w: usize,
    order: usize,
    labels: usize,
    counts: usize,
) -> Result<Index, Refusal>
    ensures { result
        ≡ opened (read_test bytes.now w order labels counts)
        (frames_of bytes.now) (stop_of bytes.now) }
{
    test(width_fits(w), Reason::Size, 0)?;
    let index = crate::header(bytes)?;
    test(
        rooms::lengths_fit(index.n, w, order, labels, counts),
        Reason::Length,
        0,
    )?;
    let reading = Reading {
        bytes,
        n: index.n,
        w,
        k: index.k,
    };
    reading.body()?;
    Ok(index)
}
