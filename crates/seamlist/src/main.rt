// Lists the index file on standard input: frames, hubs, entries and spread, then each frame's hubs and joins. A file that
// the reader refuses gives `refused` and the number.
#![tactic(auto)]

fn main() {
    listing::list(0, 1);
}
