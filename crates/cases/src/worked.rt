// 'Checked by hand', the cases without a star.
ghost use Rattle.std.specs.Prelude.{◌*◌, ◌≤◌};

use crate::rooms::Memory;

// The chain 0-1-2-3: its file has 39 bytes.
fn chain(rt: &impl Print) {
    let mut memory = Memory::<4, 12>::new();
    let mut rooms = memory.rooms(4, 3);
    let order = [1, 2, 0, 3];
    let built = rooms.build(&[0, 1, 3, 5, 6], &[1, 0, 2, 1, 3, 2], &order);
    if built.is_ok()
        && let Ok(size) = rooms.write(&order, 4, &mut [0; 64])
    {
        let _ = println!(rt; "chain, k = 4, W = 3: file of {size} bytes");
    }
}

// Three frames, only link 0-1, order 0,1,2, k = 3: (2,2) is 0.
fn apart(rt: &impl Print) {
    let mut memory = Memory::<3, 6>::new();
    let mut rooms = memory.rooms(3, 2);
    if rooms.build(&[0, 1, 2, 2], &[1, 0], &[0, 1, 2]).is_ok()
        && let Ok(Some(joins)) = rooms.pair(2, 2)
    {
        let _ = println!(rt; "three frames, link 0-1, k = 3: pair (2,2) {joins}");
    }
}

// One frame, k = 0: its file of seven bytes.
fn alone(rt: &impl Print) {
    let mut memory = Memory::<1, 1>::new();
    let rooms = memory.rooms(1, 1);
    let mut file = [255; 7];
    let _ = rooms.write(&[0], 0, &mut file);
    let _ = print!(rt; "one frame, k = 0: file");
    for byte in &file {
        let _ = print!(rt; " {byte:02x}");
    }
    let _ = println!(rt;);
}

// n frames with no link, rooms cut for n and w, built whole. All degrees are equal, so the order is the frames' own.
fn unlinked(rt: &impl Print, name: &str, n: usize, w: usize)
    requires { (n ≤ 4097) × (n * w ≤ 4097) }
{
    let starts = [0; 4098];
    let starts = &starts[..n + 1];
    let mut memory = Memory::<4097, 4097>::new();
    let mut rooms = memory.rooms(n, w);
    let mut order = [0; 4097];
    // What refuses the order refuses the build too.
    let _ = links::order_by_degree(n, starts, &[], &mut order[..n]);
    let _ = match rooms.build(starts, &[], &order[..n]) {
        Ok(entries) => println!(rt; "{name}: {entries} entries"),
        Err(refusal) => println!(rt; "{name}: {refusal}"),
    };
}

// Link 0-0: LINKS at 0.
fn looped(rt: &impl Print) {
    if let Err(refusal) = links::check_links(1, &[0, 1], &[0]) {
        let _ = println!(rt; "link 0-0: {refusal}");
    }
}

pub fn run(rt: &impl Print) {
    chain(rt);
    apart(rt);
    alone(rt);
    unlinked(rt, "n 4,096", 4096, 1);
    unlinked(rt, "n 4,097", 4097, 1);
    unlinked(rt, "W 256", 1, 256);
    unlinked(rt, "W 257", 1, 257);
    unlinked(rt, "W 0", 1, 0);
    looped(rt);
}
