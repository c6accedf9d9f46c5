// The rooms filled from a file whose tests are fine: fields are read again and stored, and unused places get 0.
ghost use Rattle.std.specs.Prelude.{◌+◌, ◌*◌, ◌^◌, ◌≤◌, ◌<◌, ◌≡◌, length};
ghost use Rattle.basics.specs.Places.{table};
ghost use Rattle.fields.specs.Bits.{byte_len};
ghost use Rattle.fields.specs.Layout.{entry_bits};
ghost use Rattle.file.specs.Reader.{entry_at, cell_of, order_read, labels_read, counts_read};
ghost use Rattle.file.specs.Inner.{EntriesThere, RowThere, OrderThere, RowsThere};

use entry::{Entry, entry_of};
use fields::{get, widths};

// The order.
pub fn order(bytes: &[u8], order: &mut [u32])
    requires { OrderThere bytes.now (length order.old) }
    ensures { order.new ≡ order_read bytes.now (length order.old) }
{
    for (r, place) in order.iter_mut().enumerate() {
        *place = get::in_four(
            bytes,
            widths::HEADER_BITS + widths::FRAME_BITS * r,
            widths::FRAME_BITS,
        ) as u32;
    }
}

// The entry at bit p.
pub fn entry(bytes: &[u8], p: usize) -> Entry
    requires { (p < 2 ^ 30) × (byte_len (p + entry_bits) ≤ length bytes.now) }
    ensures { result ≡ entry_at bytes.now p }
{
    let both = get::both(bytes, p);
    entry_of(both / widths::JOINS_VALUES, both % widths::JOINS_VALUES)
}

// The entry that begins `past` bits into byte `at`, where four bytes from that one on are there.
pub fn entry_from(bytes: &[u8], at: usize, past: usize) -> Entry
    requires { (past < 8) × (at + 4 ≤ length bytes.now) }
    ensures { result ≡ entry_at bytes.now (8 * at + past) }
{
    let both = get::four_from(bytes, at, past, widths::ENTRY_BITS);
    entry_of(both / widths::JOINS_VALUES, both % widths::JOINS_VALUES)
}

// Entries from bit p on, one for each of these places, one by one.
#[inline(never)]
pub fn entries_singly(bytes: &[u8], p: usize, places: &mut [Entry])
    requires { EntriesThere bytes.now p (length places.old) }
    ensures { places.new ≡ table (length places.old) (λ i. entry_at bytes.now (p + entry_bits * i)) }
{
    for (i, place) in places.iter_mut().enumerate() {
        *place = entry(bytes, p + widths::ENTRY_BITS * i);
    }
}

// The same, in one go where each has four bytes, as in all rows but one that the file ends with.
pub fn entries(bytes: &[u8], p: usize, places: &mut [Entry])
    requires { EntriesThere bytes.now p (length places.old) }
    ensures { places.new ≡ table (length places.old) (λ i. entry_at bytes.now (p + entry_bits * i)) }
{
    let at = p / 8;
    let past = p % 8;
    if bytes.len() <= at + widths::ENTRY_BYTES * places.len() {
        return entries_singly(bytes, p, places);
    }
    for (i, place) in places.iter_mut().enumerate() {
        *place = entry_from(bytes, at + widths::ENTRY_BYTES * i, past);
    }
}

// The row of `count` entries at bit p: its entries, then 0.
pub fn row(bytes: &[u8], p: usize, count: usize, row: &mut [Entry])
    requires { RowThere bytes.now p count (length row.old) }
    ensures { row.new ≡ table (length row.old) (cell_of bytes.now p count) }
{
    let (used, unused) = row.split_at_mut(count);
    entries(bytes, p + widths::COUNT_BITS, used);
    unused.fill(0);
}

// All rows and their counts.
pub fn rows(bytes: &[u8], w: usize, labels: &mut [Entry], counts: &mut [u32])
    requires { RowsThere bytes.now (length counts.old) w (length labels.old) }
    ensures labels { labels.new ≡ labels_read bytes.now (length counts.old) w }
    ensures counts { counts.new ≡ counts_read bytes.now (length counts.old) }
{
    let mut p = widths::HEADER_BITS + widths::FRAME_BITS * counts.len();
    for (v, place) in counts.iter_mut().enumerate() {
        let count = get::in_four(bytes, p, widths::COUNT_BITS);
        *place = count as u32;
        row(bytes, p, count, &mut labels[v * w..(v + 1) * w]);
        p += widths::COUNT_BITS + widths::ENTRY_BITS * count;
    }
}
