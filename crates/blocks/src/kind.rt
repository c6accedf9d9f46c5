// The kinds of random blocks, by the links that are drawn.
ghost use Rattle.std.specs.Prelude.{◌<◌, ◌≤◌};

use crate::dice::Dice;

#[derive(Clone, Copy, Debug, PartialEq, Eq)]
pub enum Kind {
    // One path through all frames.
    Path,
    // The path, and a few links across.
    Crossed,
    // Fewer links than frames, so that the block falls apart.
    Pieces,
    Sparse,
    Dense,
    // Nearly every frame linked to every other, where frames are few.
    Full,
}

impl Kind {
    const ALL: [Kind; 6] = [
        Kind::Path,
        Kind::Crossed,
        Kind::Pieces,
        Kind::Sparse,
        Kind::Dense,
        Kind::Full,
    ];

    // Any of them.
    pub fn draw(dice: &mut Dice) -> Self {
        Self::ALL[dice.below(6)]
    }

    // Whether a path runs through all frames, for long distances.
    pub fn has_path(self) -> bool {
        matches!(self, Kind::Path | Kind::Crossed)
    }

    // How many links are drawn at random between n frames; some fall together.
    pub fn links(self, n: usize) -> usize
        requires { n ≤ 200 }
    {
        match self {
            Kind::Path => 0,
            Kind::Crossed => n / 8,
            Kind::Pieces => n / 2,
            Kind::Sparse => n,
            Kind::Dense => n * 3,
            Kind::Full => n * 30,
        }
    }
}
