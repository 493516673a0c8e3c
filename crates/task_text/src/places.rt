//! Where a byte of a file stands: its line and its column.

ghost use Rattle.std.specs.Prelude.{◌≡◌};
ghost use Rattle.task_text.specs.Places as places;
ghost use Rattle.task_text.specs.Places.{passed, place_at};
ghost use Rattle.task_text.specs.PlaceViews.{StandsIn, place_seen};

/// A line and a column, each counted from 1.
#[derive(Clone, Copy)]
pub(crate) struct Place {
    pub line: u32,
    pub column: u32,
}

impl Place {
    /// The place of a file's first byte.
    const FIRST: Place = Place { line: 1, column: 1 };

    /// What stands behind this byte, which stands there; a tab is one column.
    fn past(self, byte: u8) -> Place
        ensures { place_seen result ≡ passed byte (place_seen self) }
    {
        if byte == b'\n' {
            return Place {
                line: self.line.saturating_add(1),
                column: 1,
            };
        }
        Place {
            line: self.line,
            column: self.column.saturating_add(1),
        }
    }
}

/// An offset of a file, and where its byte stands. It goes on from there, so that places in their order are found in one pass.
#[derive(Clone, Copy)]
pub(crate) struct Cursor {
    offset: usize,
    place: Place,
}

impl Cursor {
    /// At a file's first byte.
    pub(crate) const FIRST: Cursor = Cursor {
        offset: 0,
        place: Place::FIRST,
    };

    /// Goes to an offset of the same file, from the first byte again where it is past that; tells where its byte stands.
    pub(crate) fn go_to(&mut self, file: &[u8], offset: usize) -> Place
        requires { StandsIn file.now self.old }
        ensures place { place_seen result ≡ place_at file.now offset }
        ensures stands { StandsIn file.now self.new }
    {
        if offset < self.offset {
            *self = Cursor::FIRST;
        }
        while self.offset < offset {
            let Some(byte) = file.get(self.offset) else {
                return self.place;
            };
            self.place = self.place.past(*byte);
            self.offset += 1;
        }
        self.place
    }
}

/// Where the byte at an offset stands.
pub(crate) fn place_at(file: &[u8], offset: usize) -> Place
    ensures { place_seen result ≡ place_at file.now offset }
{
    let mut cursor = Cursor::FIRST;
    cursor.go_to(file, offset)
}

/// The bytes between two offsets; none where these aren't offsets of the text in order.
pub(crate) fn part(text: &[u8], start: usize, end: usize) -> &[u8]
    ensures { result.now ≡ places.part text.now start end }
{
    if start <= end && end <= text.len() {
        return &text[start..end];
    }
    &[]
}
