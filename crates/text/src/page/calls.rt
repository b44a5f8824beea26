ghost use Rattle.std.specs.Prelude.{◌≡◌, ℕ, ◌≤◌, List, length, decimal};
ghost use Rattle.text.specs.Pieces.{Adds, Begins, room};
ghost use Rattle.text.specs.Text.{rows_of};

use super::Page;
use itoa::Buffer;

/// An item that has a row of text, which may name its place in a list.
pub trait Row {
    ghost text: { ℕ → Self → List ℕ };

    fn put(&self, place: usize, page: &mut Page<'_>)
        requires { length (text place self.now) ≤ room page.old }
        ensures { Adds (text place self.now) page.old page.new };
}

impl<'a> Page<'a> {
    /// Nothing is written yet.
    pub fn new(out: &'a mut [u8]) -> Self
        ensures same_reference { result.out.ghost_name ≡ out.entry.ghost_name }
        ensures begins { Begins out.old result }
    {
        Page { out, at: 0 }
    }

    /// How many bytes are written.
    pub fn len(&self) -> usize
        ensures { result ≡ self.now.at }
    {
        self.at
    }

    /// Bytes, behind what is written.
    pub fn put(&mut self, bytes: &[u8])
        requires { length bytes.now ≤ room self.old }
        ensures { Adds bytes.now self.old self.new }
    {
        let end = self.at + bytes.len();
        self.out[self.at..end].copy_from_slice(bytes);
        self.at = end;
    }

    /// A number in decimal digits.
    pub fn put_number(&mut self, n: u64)
        requires { length (decimal n) ≤ room self.old }
        ensures { Adds (decimal n) self.old self.new }
    {
        self.put(Buffer::new().format(n).as_bytes());
    }

    /// The rows of a list, in its order.
    pub fn put_rows<R: Row>(&mut self, rows: &[R])
        requires { (d : R) → length (rows_of R.text rows.now d) ≤ room self.old }
        ensures { (d : R) → Adds (rows_of R.text rows.now d) self.old self.new }
    {
        for (place, row) in rows.iter().enumerate() {
            row.put(place, self);
        }
    }
}
