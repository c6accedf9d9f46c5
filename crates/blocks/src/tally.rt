// What was compared so far.
use std::fmt;

#[derive(Clone, Copy, Debug, Default)]
pub struct Tally {
    builds: usize,
    refused: usize,
    entries: usize,
    pairs: usize,
}

impl Tally {
    // One more build that was not refused, and its entries.
    pub fn built(&mut self, entries: usize) {
        self.builds = self.builds.saturating_add(1);
        self.entries = self.entries.saturating_add(entries);
    }

    // So many more pairs.
    pub fn compared(&mut self, pairs: usize) {
        self.pairs = self.pairs.saturating_add(pairs);
    }

    // One more build that was refused for want of room.
    pub fn refused(&mut self) {
        self.refused = self.refused.saturating_add(1);
    }
}

impl fmt::Display for Tally {
    fn fmt<W: fmt::Write>(&self, f: &mut fmt::Formatter<W>) -> fmt::Result {
        let Tally {
            builds,
            refused,
            entries,
            pairs,
        } = *self;
        write!(
            f,
            "builds {builds} refused {refused} entries {entries} pairs {pairs}"
        )
    }
}
