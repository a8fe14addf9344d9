// Sections of a file: the cells and the name.
ghost use Rattle.std.specs.Prelude.{◌≡◌, ◌+◌, ◌≤◌, length, nat_lt};
ghost use Rattle.formats.specs.Patch.{lies, share, placed};
ghost use Rattle.formats.specs.Putting.{part};

// A section: where it begins, and how many bytes it has.
#[derive(Clone, Copy)]
pub(crate) struct Section {
    pub place: usize,
    pub length: usize,
}

impl Section {
    // Whether it lies behind the header and within a file of so many bytes.
    fn is_inside(self, size: usize) -> bool
        ensures { result ≡ lies size self.place self.length }
    {
        (12..=size).contains(&self.place) && self.length <= size - self.place
    }

    // Whether it has the byte at a place that is not before its own.
    fn reaches(self, place: usize) -> bool
        requires { self.place ≤ place }
        ensures { result ≡ nat_lt place (self.place + self.length) }
    {
        place - self.place < self.length
    }

    // Whether two sections share a byte: both have that of the later beginning.
    fn shares_byte(self, other: Section) -> bool
        ensures { result ≡ share self.place self.length other.place other.length }
    {
        let later = self.place.max(other.place);
        self.reaches(later) && other.reaches(later)
    }

    // Whether two sections lie in a file of so many bytes and share none of them.
    pub(crate) fn is_placed_with(self, other: Section, size: usize) -> bool
        ensures { result ≡ placed size self.place self.length other.place other.length }
    {
        self.is_inside(size) && other.is_inside(size) && !self.shares_byte(other)
    }

    // The bytes of a file that it has.
    pub(crate) fn part_of(self, file: &[u8]) -> &[u8]
        requires { self.place + self.length ≤ length file.now }
        ensures bytes { result.now ≡ part self.place self.length file.now }
        ensures count { length result.now ≡ self.length }
    {
        &file[self.place..self.place + self.length]
    }
}
