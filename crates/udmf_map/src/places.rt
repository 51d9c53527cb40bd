//! Where a byte of a text stands.

ghost use Rattle.std.specs.Prelude.{◌≡◌, ◌≤◌, length};
ghost use Rattle.udmf_map.specs.Places.{place_in_text as place_of_lem};

/// A row and a column, both counted from 1.
#[derive(Clone, Copy)]
pub struct Place {
    pub row: usize,
    pub column: usize,
}

/// Where the byte of this number stands. A row ends with a line feed; a column is a byte.
pub fn place_of(text: &[u8], at: usize) -> Place
    requires { at ≤ length text.now }
    ensures { result ≡ place_of_lem text.now at }
{
    let (front, _) = text.split_at(at);
    let mut place = Place { row: 1, column: 1 };
    let mut rest = front;
    while let [byte, more @ ..] = rest {
        if *byte == b'\n' {
            place.row += 1;
            place.column = 1;
        } else {
            place.column += 1;
        }
        rest = more;
    }
    place
}
