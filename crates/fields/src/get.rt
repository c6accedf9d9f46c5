// Fields out of a byte string: a field is gathered byte by byte, at most three of them, and cut out of what was gathered, or out of
// four bytes at once; so are the two fields of an entry together, where four bytes are there.
ghost use Rattle.std.specs.Prelude.{◌+◌, ◌*◌, ◌/◌, ◌^◌, ◌≤◌, ◌<◌, ◌≡◌, length};
ghost use Rattle.fields.specs.Bits.{field_at, byte_len};
ghost use Rattle.fields.specs.Layout.{entry_bits};
ghost use Rattle.fields.specs.Inner.{Near};

use crate::widths;

// The value of the field of `width` bits at bit p.
#[tactic(auto, unfolding(crate::specs::Bits::byte_len))]
pub fn get(bytes: &[u8], p: usize, width: usize) -> usize
    requires { Near p width × (byte_len (p + width) ≤ length bytes.now) }
    ensures { result ≡ field_at bytes.now p width }
{
    let end = (p + width + 7) / 8;
    let mut sum = 0;
    // By place: over the part itself, `for byte in &bytes[p / 8..end]`, a file whose every field was gathered took a fifth longer.
    for i in p / 8..end {
        sum = sum * 256 + bytes[i] as usize;
    }
    let rest = 8 * end - (p + width);
    (sum >> rest) & ((1 << width) - 1)
}

// The value of the field of `width` bits that begins `past` bits behind the front of byte `at`, and ends in the four bytes from
// that one on.
pub fn four_from(bytes: &[u8], at: usize, past: usize, width: usize) -> usize
    requires { (past + width ≤ 32) × (at + 4 ≤ length bytes.now) }
    ensures { result ≡ field_at bytes.now (8 * at + past) width }
{
    let sum = u32::from_be_bytes([bytes[at], bytes[at + 1], bytes[at + 2], bytes[at + 3]]);
    (sum as usize >> (32 - past - width)) & ((1 << width) - 1)
}

// What `get` gives, where four bytes are there at all: out of those from the field's own on, or out of the last four. The header's
// fields are left to `get`, which is faster where the place is known when this is compiled.
#[tactic(auto, unfolding(crate::specs::Bits::byte_len))]
pub fn in_four(bytes: &[u8], p: usize, width: usize) -> usize
    requires { Near p width × (byte_len (p + width) ≤ length bytes.now) × (4 ≤ length bytes.now) }
    ensures { result ≡ field_at bytes.now p width }
{
    let at = p / 8;
    if at + 4 <= bytes.len() {
        return four_from(bytes, at, p % 8, width);
    }
    let last = bytes.len() - 4;
    four_from(bytes, last, p - 8 * last, width)
}

// The bits of an entry at bit p, where four bytes from its own on are there.
pub fn four(bytes: &[u8], p: usize) -> usize
    requires { (p < 2 ^ 30) × (p / 8 + 4 ≤ length bytes.now) }
    ensures { result ≡ field_at bytes.now p entry_bits }
{
    four_from(bytes, p / 8, p % 8, widths::ENTRY_BITS)
}

// The same wherever they are there.
#[tactic(auto, using(crate::proofs::Bits::field_lt), unfolding(crate::specs::Bits::byte_len))]
pub fn both(bytes: &[u8], p: usize) -> usize
    requires { (p < 2 ^ 30) × (byte_len (p + entry_bits) ≤ length bytes.now) }
    ensures { result ≡ field_at bytes.now p entry_bits }
{
    let end = p / 8 + 4;
    if end <= bytes.len() {
        return four(bytes, p);
    }
    let rank = get(bytes, p, widths::RANK_BITS);
    let joins = get(bytes, p + widths::RANK_BITS, widths::JOINS_BITS);
    rank * widths::JOINS_VALUES + joins
}
