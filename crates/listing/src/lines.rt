// The lines of the listing. A number takes at most twenty bytes, so an entry at most 42, and a line of 32 entries at
// most 1,365.
ghost use Rattle.std.specs.Prelude.{◌+◌, ◌*◌, ◌<◌, ◌≤◌, ◌++◌, length};
ghost use Rattle.entry.specs.Entry.{rank_of};
ghost use Rattle.entry.specs.Inner.{RanksIn};
ghost use Rattle.listing.specs.Inner.{PutText, Shown};
ghost use Rattle.listing.specs.Text.{decimal};
ghost use Rattle.listing.specs.Lines.{WIDTH as width, entry_text, entries_text, line_text, lines_text, head_text, refused_text};

use crate::{WIDTH, text};
use entry::{Entry, joins_of, rank_of};
use rows::part::row_part;

// One entry of a row: a space, the hub's frame, a colon, the joins. The hub's frame is not its rank, but stands there in
// the order.
pub fn entry(out: &mut [u8], at: usize, order: &[u32], e: Entry) -> usize
    requires { (at + 42 ≤ length out.old) × (rank_of e < length order.now) }
    ensures put { PutText out.old at (entry_text order.now e) out.new result }
    ensures near { result ≤ at + 42 }
{
    let rank = rank_of(e);
    let hub = order[rank] as usize;
    let joins = joins_of(e);
    let at_hub = text::byte(out, at, b' ');
    let at_colon = text::number(out, at_hub, hub);
    let at_joins = text::byte(out, at_colon, b':');
    text::number(out, at_joins, joins)
}

// The entries of a row, in rank order.
pub fn entries(out: &mut [u8], at: usize, order: &[u32], row: &[Entry]) -> usize
    requires { (at + 42 * length row.now ≤ length out.old)
        × RanksIn row.now order.now }
    ensures put { PutText out.old at (entries_text order.now row.now)
        out.new result }
    ensures near { result ≤ at + 42 * length row.now }
{
    let mut end = at;
    for &e in row {
        end = entry(out, end, order, e);
    }
    end
}

// A frame's line: its number and its entries; the number alone for an empty row.
pub fn line(out: &mut [u8], at: usize, order: &[u32], v: usize, row: &[Entry]) -> usize
    requires { (at + 42 * length row.now + 21 ≤ length out.old)
        × RanksIn row.now order.now }
    ensures put { PutText out.old at (line_text order.now v row.now)
        out.new result }
    ensures near { result ≤ at + 42 * length row.now + 21 }
{
    let at_row = text::number(out, at, v);
    let at_end = entries(out, at_row, order, row);
    text::byte(out, at_end, b'\n')
}

// A word and a number behind it.
pub fn figure(out: &mut [u8], at: usize, word: &[u8], x: usize) -> usize
    requires { at + length word.now + 20 ≤ length out.old }
    ensures put { PutText out.old at (word.now ++ decimal x) out.new result }
    ensures near { result ≤ at + length word.now + 20 }
{
    let at_number = text::bytes(out, at, word);
    text::number(out, at_number, x)
}

// The first line: n, k, the sum of the counts, the spread.
pub fn head(out: &mut [u8], n: usize, k: usize, entries: usize, spread: usize) -> usize
    requires { 111 ≤ length out.old }
    ensures put { PutText out.old 0 (head_text n k entries spread) out.new result }
    ensures near { result ≤ 111 }
{
    let at_hubs = figure(out, 0, b"frames ", n);
    let at_entries = figure(out, at_hubs, b" hubs ", k);
    let at_spread = figure(out, at_entries, b" entries ", entries);
    let at_end = figure(out, at_spread, b" spread ", spread);
    text::byte(out, at_end, b'\n')
}

// A refusal: its number alone.
pub fn refused(out: &mut [u8], number: u32) -> usize
    requires { 29 ≤ length out.old }
    ensures put { PutText out.old 0 (refused_text number) out.new result }
    ensures near { result ≤ 29 }
{
    let at_end = figure(out, 0, b"refused ", number as usize);
    text::byte(out, at_end, b'\n')
}

// The lines of all frames.
pub fn lines(out: &mut [u8], at: usize, order: &[u32], labels: &[Entry], counts: &[u32]) -> usize
    requires shown { Shown order.now labels.now counts.now }
    requires counts_in_bounds { at + 1365 * length counts.now ≤ length out.old }
    ensures put { PutText out.old at
        (lines_text (length counts.now) width order.now labels.now
        counts.now)
        out.new result }
    ensures near { result ≤ at + 1365 * length counts.now }
{
    let mut end = at;
    for (v, &count) in counts.iter().enumerate() {
        let row = row_part(labels, WIDTH, v, count as usize);
        end = line(out, end, order, v, row);
    }
    end
}
