// Numbers at random, a run that depends on the seed alone.
ghost use Rattle.std.specs.Prelude.{◌<◌};

const MODULUS: u64 = 2147483647;

#[derive(Drop)]
pub struct Dice {
    state: u64,
}

impl Dice {
    pub fn new(seed: u64) -> Self {
        Self { state: seed }
    }

    // What the rest of the run depends on.
    pub fn seed(&self) -> u64 {
        self.state
    }

    // The next number of the run.
    fn roll(&mut self) -> u64 {
        self.state = self.state % MODULUS * 48271 % MODULUS;
        self.state
    }

    // The next number, brought below `most`.
    pub fn below(&mut self, most: usize) -> usize
        requires { 0 < most }
        ensures { result < most }
    {
        self.roll() as usize % most
    }
}
