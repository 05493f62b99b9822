// Parts of slices, and the buffers that are lent to calls.
ghost use Rattle.std.specs.Prelude.{◌≡◌, min};

// Where a part of a line starts and ends.
#[derive(Clone, Copy, Default)]
pub(crate) struct Span {
    pub start: usize,
    pub end: usize,
}

impl Span {
    // How long it is, 0 where it ends before it starts.
    pub(crate) fn length(self) -> usize {
        self.end.saturating_sub(self.start)
    }

    // What it is of a list, empty where there is no such part.
    pub(crate) fn of<T>(self, items: &[T]) -> &[T] {
        match items.get(self.start..self.end) {
            Some(part) => part,
            None => &[],
        }
    }
}

// The front of a list up to a place, empty where there is no such place.
pub(crate) fn front_of<T>(items: &[T], end: usize) -> &[T] {
    Span { start: 0, end }.of(items)
}

// The most room of a buffer that is lent, and what it holds before the call.
pub(crate) const MOST_ROOM: usize = 256;

pub(crate) const FILL: u8 = 0xa5;

// The room that a call asks for, but no more than a buffer has.
pub(crate) fn room_of(room: u64, most: usize) -> usize
    ensures { result ≡ min room most }
{
    room.min(most as u64) as usize
}
