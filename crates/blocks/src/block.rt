// A block as the library takes it: start positions and lists, in rooms that are lent.
ghost use Rattle.std.specs.Prelude.{◌≤◌};

use crate::room::List;

#[derive(Drop)]
pub struct Block<'a> {
    pub n: u32,
    pub starts: &'a [u32],
    pub places: &'a [u32],
    ghost in_range: { n ≤ 4096 },
}

impl<'a> Block<'a> {
    // Lays out the block of n frames that are linked as `is_linked` says, at the front of two rooms.
    pub fn lay<F: Fn(u32, u32) -> bool>(
        n: u32,
        is_linked: F,
        starts: &'a mut [u32],
        places: &'a mut [u32],
    ) -> Self
        requires callable { F.IsAlwaysCallable is_linked }
        requires in_range { n ≤ 4096 }
    {
        let mut starts = List::new(starts);
        let mut places = List::new(places);
        starts.push(0);
        for v in 0..n {
            lay_list(n, |u| is_linked(v, u), &mut places);
            // A block has at most 4,096 * 4,096 places, so that this number is always the length.
            starts.push(u32::try_from(places.len()).unwrap_or(u32::MAX));
        }
        Self {
            n,
            starts: starts.into_slice(),
            places: places.into_slice(),
        }
    }

    // The frames that frame v is linked to.
    pub fn list(&self, v: usize) -> &[u32] {
        match self.starts.get(v..) {
            Some([from, end, ..]) => self
                .places
                .get(*from as usize..*end as usize)
                .unwrap_or(&[]),
            _ => &[],
        }
    }
}

// The frames that one frame is linked to.
fn lay_list<F: Fn(u32) -> bool>(n: u32, is_linked: F, places: &mut List<u32>)
    requires { F.IsAlwaysCallable is_linked }
{
    for u in (0..n).filter(|u| is_linked(*u)) {
        places.push(u);
    }
}
