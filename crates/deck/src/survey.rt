// The survey's block: which frames overlap.

// Frames of the deck and of the ramp, and of one strip.
pub const FRAMES: u32 = 256;

const STRIP: u32 = 32;

// The strip that is the ramp.
const RAMP: u32 = 7;

// The start positions and the neighbour places, in fixed memory: of the places, as many as the lists fill.
#[derive(Drop)]
pub struct Survey {
    pub starts: [u32; FRAMES as usize + 1],
    places: [u32; 1024],
    filled: usize,
}

impl Survey {
    pub fn new() -> Self {
        let mut survey = Self {
            starts: [0; FRAMES as usize + 1],
            places: [0; 1024],
            filled: 0,
        };
        for v in 0..FRAMES {
            for u in (0..FRAMES).filter(|u| overlap(v, *u)) {
                survey.push(u);
            }
            survey.starts[v as usize + 1] = u32::try_from(survey.filled).unwrap_or(u32::MAX);
        }
        survey
    }

    // Puts a frame behind the neighbour places; one that has no room is left out.
    fn push(&mut self, u: u32) {
        if let Some(place) = self.places.get_mut(self.filled) {
            *place = u;
            self.filled += 1;
        }
    }

    pub fn places(&self) -> &[u32] {
        self.places.get(..self.filled).unwrap_or(&[])
    }
}

// Whether two frames overlap: neighbours in a strip, or side by side on the deck. Frame v is the frame v % 32 of strip
// v / 32, its column.
fn overlap(v: u32, u: u32) -> bool {
    let strips = (v / STRIP).abs_diff(u / STRIP);
    let columns = (v % STRIP).abs_diff(u % STRIP);
    match (strips, columns) {
        (0, 1) => true,
        (1, 0) => v / STRIP != RAMP && u / STRIP != RAMP,
        _ => false,
    }
}
