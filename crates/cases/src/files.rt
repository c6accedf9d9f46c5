// The files 00, 01 and so on up to the first that is not there: each one's name, what the listing gives, and the place where
// the reader refuses it.
use crate::rooms::Memory;
use listing::{FRAMES, TAKEN, WIDTH};
use refusal::Refusal;
use std::fs::File;
use std::os::fd::AsRawFd;
use std::str;

// The places of the rows that the listing has room for.
const PLACES: usize = FRAMES * WIDTH;

// The refusal of the header, or of the reader where the listing has room for so many frames.
fn refusal_of(bytes: &[u8]) -> Option<Refusal> {
    match file::header(bytes) {
        Err(refusal) => Some(refusal),
        Ok(header) if FRAMES < header.n => None,
        Ok(header) => {
            let mut order = [0; FRAMES];
            let mut memory = Memory::<FRAMES, PLACES>::new();
            let mut rooms = memory.rooms(header.n, WIDTH);
            rooms.read(bytes, &mut order[..header.n]).err()
        }
    }
}

// Prints where the reader refuses what a file gives. As in the listing, a read that fails counts as the file's end.
fn judge(rt: &HostRuntime, file: File) {
    let mut bytes = [0; TAKEN];
    let taken = io::read_full(file.as_raw_fd(), &mut bytes);
    if let Some(refusal) = refusal_of(&bytes[..taken]) {
        let _ = println!(rt; "at {}", refusal.place);
    }
}

// Lists and judges one file; whether it is there.
fn is_listed(rt: &HostRuntime, name: &str) -> bool {
    let Ok(listed) = File::open(rt, name) else {
        return false;
    };
    let _ = println!(rt; "{name}");
    listing::list(listed.as_raw_fd(), 1);
    let Ok(judged) = File::open(rt, name) else {
        return false;
    };
    judge(rt, judged);
    true
}

pub fn run(rt: &HostRuntime) {
    for number in 0..100 {
        let digits = [b'0' + number / 10, b'0' + number % 10];
        let Ok(name) = str::from_utf8(&digits) else {
            return;
        };
        if !is_listed(rt, name) {
            return;
        }
    }
}
