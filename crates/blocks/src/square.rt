// The links of a random block, as a square of marks: symmetric, and without its diagonal.
ghost use Rattle.std.specs.Prelude.{◌<◌, ◌≤◌};

use crate::dice::Dice;
use crate::kind::Kind;

// Frames of the largest block.
pub const SIDE: usize = 200;

#[derive(Drop)]
pub struct Square {
    marks: [[bool; SIDE]; SIDE],
}

impl Square {
    // A square of one kind for the frames below n; some frames stay alone.
    pub fn draw(n: usize, kind: Kind, dice: &mut Dice) -> Self
        requires { (0 < n) × (n ≤ 200) }
    {
        let mut square = Self {
            marks: [[false; SIDE]; SIDE],
        };
        if kind.has_path() {
            square.link_path(n);
        }
        square.link_at_random(n, kind.links(n), dice);
        square
    }

    pub fn is_linked(&self, s: usize, t: usize) -> bool {
        self.marks
            .get(s)
            .is_some_and(|row| row.get(t).copied().unwrap_or(false))
    }

    // Links two frames both ways, unless they are one.
    fn link(&mut self, s: usize, t: usize)
        requires { (s < 200) × (t < 200) }
    {
        if s != t {
            self.marks[s][t] = true;
            self.marks[t][s] = true;
        }
    }

    fn link_path(&mut self, n: usize)
        requires { n ≤ 200 }
    {
        for v in 1..n {
            self.link(v - 1, v);
        }
    }

    fn link_at_random(&mut self, n: usize, links: usize, dice: &mut Dice)
        requires { (0 < n) × (n ≤ 200) }
    {
        for _ in 0..links {
            let s = dice.below(n);
            let t = dice.below(n);
            self.link(s, t);
        }
    }
}
