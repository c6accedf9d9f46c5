// The listing of an index file: what `seamlist` prints, for the technician. At most 256 frames and 32 entries in a row.
//
// `listing` makes the whole text from a file's bytes, and its contract says what the text is. `list` only reads and writes. A
// read that fails counts as the input's end, so that what was read is judged: a file that is cut is refused. A write that
// fails ends the listing.
#![tactic(auto)]

ghost use Rattle.std.specs.Prelude.{◌≡◌, ◌*◌, length};
ghost use Rattle.io.specs.Counts.{IsPrefixLen};
ghost use Rattle.listing.specs.Listing.{listing_of, listed_in};

mod index;
mod lines;
mod text;

// Most frames, and most entries in a row, that the listing takes.
pub const FRAMES: usize = 256;

pub const WIDTH: usize = 32;

// Bytes taken of an input: one more than the largest file of so many frames and entries has.
pub const TAKEN: usize = 25253;

// Bytes of the longest text, with twenty for each number: the first line and 256 lines of 1,365.
pub const LONGEST: usize = 349551;

// Puts the listing of a file's bytes, or `refused` with the number, at the front of `out`, and gives back its length.
pub fn listing(bytes: &[u8], out: &mut [u8; LONGEST]) -> usize
    ensures inside { IsPrefixLen result out.new }
    ensures size { result ≡ length (listing_of bytes.now) }
    ensures room { out.new ≡ listed_in bytes.now out.old }
{
    let mut order = [0u32; FRAMES];
    let mut labels = [0u32; FRAMES * WIDTH];
    let mut counts = [0u32; FRAMES];
    index::open(bytes, &mut order, &mut labels, &mut counts, out)
}

// Lists the index file that `input` gives on `output`.
pub fn list(input: i32, output: i32) {
    let mut bytes = [0u8; TAKEN];
    let taken = io::read_full(input, &mut bytes);
    let mut out = [0u8; LONGEST];
    let length = listing(&bytes[..taken], &mut out);
    io::write_all(output, &out[..length]);
}
