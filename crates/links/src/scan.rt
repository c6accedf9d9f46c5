// Tests 3 and 4 on a block whose sizes and lengths fit: start positions, then every list, left at the first faulty link.
// A link's mirror is looked for first where it should stand: as frames rise, the frames that link to w come in the order
// of w's list, so a cursor for each frame is the place of the next. A right guess needs no search; a wrong one costs one.
ghost use Rattle.std.specs.Prelude.{◌≡◌, ◌+◌, ◌-◌, ◌≤◌, length, get_or, eqb};
ghost use Rattle.basics.specs.Places.{first};
ghost use Rattle.refusal.specs.Tests.{◌then◌};
ghost use Rattle.links.specs.Links.{starts_right, holds, faulty_list, starts_test, lists_test};
ghost use Rattle.links.specs.Inner.{Fits, Starts, ListIn, Cursors, faulty_from};

use refusal::{Reason, Refusal, test};

// Whether the start positions keep their rule.
pub fn starts_right(n: usize, starts: &[u32], places: &[u32]) -> bool
    requires { (n ≤ 4096) × (length starts.now ≡ n + 1) }
    ensures { result ≡ starts_right n starts.now places.now }
{
    if starts[0] != 0 {
        return false;
    }
    for v in 0..n {
        let next = v + 1;
        if starts[next] < starts[v] {
            return false;
        }
    }
    let last = starts[n] as usize;
    last == places.len()
}

// The first place from `from` up to `end` that holds v, or `end` where none does.
pub fn find(places: &[u32], from: usize, end: usize, v: usize) -> usize
    requires { (from ≤ end) × (end ≤ length places.now) }
    ensures { result ≡ first (λ i. eqb (get_or places.now i 0) v) from (end - from) }
{
    for at in from..end {
        let u = places[at] as usize;
        if u == v {
            return at;
        }
    }
    end
}

// A cursor for each frame, at its list's start.
pub fn set_cursors(n: usize, starts: &[u32], cursors: &mut [u32])
    requires { (n ≤ 4096) × (length starts.now ≡ n + 1) × (length cursors.old ≡ 4096) }
    ensures { Cursors starts.now cursors.new }
{
    cursors[..n].copy_from_slice(&starts[..n]);
}

// Whether the list of w holds v. A guess that is right moves the cursor on, a search sets it anew.
pub fn mirrored(starts: &[u32], places: &[u32], w: usize, v: usize, cursors: &mut [u32]) -> bool
    requires { ListIn starts.now places.now w × Cursors starts.now cursors.old }
    ensures { (result ≡ holds starts.now places.now w v)
        × Cursors starts.now cursors.new }
{
    let next = w + 1;
    let end = starts[next] as usize;
    let guess = cursors[w] as usize;
    if guess < end {
        let u = places[guess] as usize;
        if u == v {
            cursors[w] = (guess + 1) as u32;
            return true;
        }
    }
    let from = starts[w] as usize;
    let at = find(places, from, end, v);
    if at < end {
        cursors[w] = (at + 1) as u32;
        return true;
    }
    false
}

// Whether a link to w breaks the rule of v's list, at a place where no frame below `floor` may stand.
pub fn faulty(
    n: usize,
    starts: &[u32],
    places: &[u32],
    v: usize,
    floor: usize,
    w: usize,
    cursors: &mut [u32],
) -> bool
    requires { Starts n starts.now places.now × Cursors starts.now cursors.old }
    ensures { (result ≡ faulty_from n starts.now places.now v floor w)
        × Cursors starts.now cursors.new }
{
    if n <= w {
        return true;
    }
    if w == v {
        return true;
    }
    if w < floor {
        return true;
    }
    !mirrored(starts, places, w, v, cursors)
}

// The lowest frame with a faulty list, or n where there is none. The scan ends as a whole at the first faulty link. Not inlined:
// what the tests before it refuse should not take the stack of its cursors.
#[inline(never)]
pub fn first_faulty(n: usize, starts: &[u32], places: &[u32]) -> usize
    requires { Starts n starts.now places.now }
    ensures { result ≡ first (faulty_list n starts.now places.now) 0 n }
{
    let mut cursors = [0u32; 4096];
    set_cursors(n, starts, &mut cursors);
    let mut found = n;
    'frames: for v in 0..n {
        let from = starts[v] as usize;
        let end = starts[v + 1] as usize;
        let mut floor: usize = 0;
        for link in &places[from..end] {
            let w = *link as usize;
            if faulty(n, starts, places, v, floor, w, &mut cursors) {
                found = v;
                break 'frames;
            }
            floor = w + 1;
        }
    }
    found
}

// Tests 3 and 4.
pub fn tests(n: usize, starts: &[u32], places: &[u32]) -> Result<(), Refusal>
    requires { Fits n starts.now places.now }
    ensures { result
        ≡ (starts_test n starts.now places.now
        then lists_test n starts.now places.now) }
{
    test(starts_right(n, starts, places), Reason::Starts, 0)?;
    let v = first_faulty(n, starts, places);
    test(v == n, Reason::Links, v)
}
