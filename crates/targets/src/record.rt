// The records that are lent, and the records taken apart. A lent record is read here alone: what asks and counts is handed
// the frames.
ghost use Rattle.std.specs.Prelude.{◌≡◌, ◌<◌, length, replicate, set};
ghost use Rattle.targets.specs.Inner.{frame_at, listed_of, listed_with};

// A target: its frame, and a mark that is neither tested nor read.
#[repr(C)]
#[derive(Clone, Copy)]
pub struct Target {
    pub frame: u32,
    pub mark: u32,
}

// The records taken apart: how many there are, and the frames of the first sixteen.
#[derive(Clone, Copy)]
pub struct Listed {
    pub count: usize,
    pub frames: [u32; 16],
}

// So many records, with no frame taken yet.
fn untaken(count: usize) -> Listed
    ensures { result ≡ listed_with count (replicate 16 0) }
{
    let frames = [0u32; 16];
    Listed { count, frames }
}

// The frame of record i taken.
fn taken(listed: Listed, i: usize, frame: u32) -> Listed
    requires { (i < 16) × (length listed.frames ≡ 16) }
    ensures { result ≡ listed_with listed.count (set listed.frames i frame) }
{
    let count = listed.count;
    let mut frames = listed.frames;
    frames[i] = frame;
    Listed { count, frames }
}

// The frame of record i, 0 where there is none.
fn frame_or(targets: &[Target], i: usize) -> u32
    ensures { result ≡ frame_at targets.now i }
{
    if i < targets.len() {
        return targets[i].frame;
    }
    0
}

// The records taken apart.
pub fn take_apart(targets: &[Target]) -> Listed
    ensures { result ≡ listed_of targets.now }
{
    let mut listed = untaken(targets.len());
    for i in 0..16 {
        listed = taken(listed, i, frame_or(targets, i));
    }
    listed
}
