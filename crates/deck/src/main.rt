// A sample survey: writes the index file of a small bridge deck to standard output.
//
// The deck has seven strips of 32 frames, and beside it lies a ramp of one strip. A frame overlaps the next one of its
// strip and the one beside it in the next strip; no frame of the ramp overlaps one of the deck. So there are pairs that no
// chain joins.
//
// Most frames have three or four links, and an order by degree is then nearly the frames' own: rows grow to 186 entries, and
// a build with 32 is refused with ROOM. Scattered, the longest row has 27.
#![tactic(auto)]

use refusal::Refusal;
use survey::{FRAMES, Survey};

mod survey;

const N: usize = FRAMES as usize;

// Most entries of a row.
const W: usize = 32;

// Puts the index file of a survey, with every frame a hub, at the front of a room, and gives back its length. All memory is
// lent: the library takes none of its own.
fn write_index(survey: &Survey, file: &mut [u8]) -> Result<usize, Refusal> {
    let starts = &survey.starts;
    let places = survey.places();
    let mut order = [0; N];
    links::order_scattered(N, starts, places, &mut order)?;
    let mut labels = [0; N * W];
    let mut counts = [0; N];
    build::build(
        N,
        W,
        N,
        starts,
        places,
        &order,
        &mut labels,
        &mut counts,
        &mut [0; N],
        &mut [0; N],
    )?;
    file::write(N, W, N, &order, &labels, &counts, file, 0)
}

fn main() {
    let survey = Survey::new();
    let mut file = [0; 25252];
    if let Ok(size) = write_index(&survey, &mut file)
        && let Some(bytes) = file.get(..size)
    {
        io::write_all(1, bytes);
    }
}
