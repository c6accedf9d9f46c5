// Text put behind what a room of bytes already holds. Each function hands back where the text ends.
ghost use Rattle.std.specs.Prelude.{◌+◌, ◌<◌, ◌≤◌, [], ◌∷◌, length};
ghost use Rattle.listing.specs.Inner.{PutText};
ghost use Rattle.listing.specs.Text.{decimal};

// One byte.
pub fn byte(out: &mut [u8], at: usize, b: u8) -> usize
    requires { at < length out.old }
    ensures { PutText out.old at (b ∷ []) out.new result }
{
    out[at] = b;
    at + 1
}

// Some bytes.
pub fn bytes(out: &mut [u8], at: usize, text: &[u8]) -> usize
    requires { at + length text.now ≤ length out.old }
    ensures { PutText out.old at text.now out.new result }
{
    let end = at + text.len();
    out[at..end].copy_from_slice(text);
    end
}

// A number in decimal, of at most twenty digits.
pub fn number(out: &mut [u8], at: usize, x: usize) -> usize
    requires { at + 20 ≤ length out.old }
    ensures put { PutText out.old at (decimal x) out.new result }
    ensures near { result ≤ at + 20 }
{
    let mut digits = [0u8; 20];
    let count = io::decimal(x as u64, &mut digits);
    bytes(out, at, &digits[..count])
}
