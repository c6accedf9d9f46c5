// How wide the fields of the index file are, in bits, and where those of the header stand: the one place in the code, for
// the writer and the reader.

// The header: its version, n - 1, the stop, spare bits.
pub const VERSION_BITS: usize = 4;

pub const FRAMES_BITS: usize = 12;

pub const STOP_BITS: usize = 13;

pub const SPARE_BITS: usize = 3;

// The version's one value.
pub const VERSION_VALUE: usize = 1;

// A frame number of the order; a row's count; an entry's rank and joins.
pub const FRAME_BITS: usize = 12;

pub const COUNT_BITS: usize = 9;

pub const RANK_BITS: usize = 12;

pub const JOINS_BITS: usize = 12;

// The first bit of a header field, and of what stands behind the header; the version has bit 0.
pub const FRAMES_BIT: usize = VERSION_BITS;

pub const STOP_BIT: usize = FRAMES_BIT + FRAMES_BITS;

pub const SPARE_BIT: usize = STOP_BIT + STOP_BITS;

pub const HEADER_BITS: usize = SPARE_BIT + SPARE_BITS;

// The bytes that reach to the end of the version, of n - 1, and of the header.
pub const VERSION_BYTES: usize = (FRAMES_BIT + 7) / 8;

pub const FRAMES_BYTES: usize = (STOP_BIT + 7) / 8;

pub const HEADER_BYTES: usize = HEADER_BITS / 8;

// What a frame takes: its number in the order, and its count.
pub const EACH_FRAME_BITS: usize = FRAME_BITS + COUNT_BITS;

// What an entry takes.
pub const ENTRY_BITS: usize = RANK_BITS + JOINS_BITS;

pub const ENTRY_BYTES: usize = ENTRY_BITS / 8;

// How many values the joins have, and an entry: 2 to the power of their widths.
pub const JOINS_VALUES: usize = 1 << JOINS_BITS;

pub const ENTRY_VALUES: usize = 1 << ENTRY_BITS;

// How many counts are legal: 0 to 256.
pub const LEGAL_COUNTS: usize = refusal::sizes::MOST_WIDTH + 1;
