// One field of the reader: its value, or the refusal that ends the reading.
ghost use Rattle.std.specs.Prelude.{◌≤◌, ◌≡◌, length, ltb};
ghost use Rattle.fields.specs.Bits.{field_at};
ghost use Rattle.fields.specs.Inner.{Near};
ghost use Rattle.file.specs.Reader.{short_test, field_test};
ghost use Rattle.file.specs.Inner.{step};

use fields::get;
use refusal::{Reason, Refusal, test};

// The value of the field of `width` bits at bit p; SHORT at p where the bytes end inside it.
pub fn value(bytes: &[u8], p: usize, width: usize) -> Result<usize, Refusal>
    requires { Near p width }
    ensures { result ≡ step (short_test bytes.now p width) (field_at bytes.now p width) }
{
    let end = (p + width + 7) / 8;
    test(end <= bytes.len(), Reason::Short, p)?;
    Ok(get::get(bytes, p, width))
}

// The same where it is below `bound`; FIELD at p where it is `bound` or more.
pub fn field(bytes: &[u8], p: usize, width: usize, bound: usize) -> Result<usize, Refusal>
    requires { Near p width }
    ensures { result
        ≡ step
        (field_test bytes.now p width (ltb (field_at bytes.now p width) bound))
        (field_at bytes.now p width) }
{
    let found = value(bytes, p, width)?;
    test(found < bound, Reason::Field, p)?;
    Ok(found)
}

// The same, out of four bytes at once: for the order's fields and the counts.
pub fn field_in_four(bytes: &[u8], p: usize, width: usize, bound: usize) -> Result<usize, Refusal>
    requires { Near p width × (4 ≤ length bytes.now) }
    ensures { result
        ≡ step
        (field_test bytes.now p width (ltb (field_at bytes.now p width) bound))
        (field_at bytes.now p width) }
{
    let end = (p + width + 7) / 8;
    test(end <= bytes.len(), Reason::Short, p)?;
    let found = get::in_four(bytes, p, width);
    test(found < bound, Reason::Field, p)?;
    Ok(found)
}
