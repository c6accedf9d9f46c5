// Rooms that a caller lends, in place of memory of one's own.

// The front of a room: so many places, or all of them where it has fewer.
pub fn cut<T>(room: &mut [T], length: usize) -> &mut [T] {
    let length = length.min(room.len());
    &mut room[..length]
}

// A list at the front of a room.
#[derive(Drop)]
pub struct List<'a, T> {
    room: &'a mut [T],
    length: usize,
}

impl<'a, T: Copy> List<'a, T> {
    // A list with nothing in it.
    pub fn new(room: &'a mut [T]) -> Self {
        Self { room, length: 0 }
    }

    pub fn len(&self) -> usize {
        self.length
    }

    pub fn get(&self, at: usize) -> Option<T> {
        self.room.get(..self.length)?.get(at).copied()
    }

    pub fn clear(&mut self) {
        self.length = 0;
    }

    // Puts a value behind the others; one that has no room is left out.
    pub fn push(&mut self, value: T) {
        if let Some(place) = self.room.get_mut(self.length) {
            *place = value;
            self.length += 1;
        }
    }

    // The part of the room that the list fills.
    pub fn into_slice(self) -> &'a [T] {
        cut(self.room, self.length)
    }
}
