// The ranges that test 1 holds sizes to. Test 1 is made here alone, by specs/Sizes.antt; inner promises keep plain bounds.
ghost use Rattle.std.specs.Prelude.{◌≡◌};
ghost use Rattle.refusal.specs.Sizes.{within, frames_fit, width_fits, places_fit, sizes_fit};

// The most frames, the widest row, the most neighbour places.
pub const MOST_FRAMES: usize = 4096;

pub const MOST_WIDTH: usize = 256;

pub const MOST_PLACES: usize = 65536;

// The most joins that a walk may give a frame.
pub const MOST_JOINS: usize = 4095;

fn is_within(least: usize, most: usize, x: usize) -> bool
    ensures { result ≡ within least most x }
{
    if x < least {
        return false;
    }
    x <= most
}

// Whether n is 1 to 4,096.
pub fn frames_fit(n: usize) -> bool
    ensures { result ≡ frames_fit n }
{
    is_within(1, MOST_FRAMES, n)
}

// Whether W is 1 to 256.
pub fn width_fits(w: usize) -> bool
    ensures { result ≡ width_fits w }
{
    is_within(1, MOST_WIDTH, w)
}

// Whether the neighbour places are at most 65,536.
pub fn places_fit(l: usize) -> bool
    ensures { result ≡ places_fit l }
{
    l <= MOST_PLACES
}

// Whether n and W are in range.
pub fn sizes_fit(n: usize, w: usize) -> bool
    ensures { result ≡ sizes_fit n w }
{
    if frames_fit(n) {
        return width_fits(w);
    }
    false
}
