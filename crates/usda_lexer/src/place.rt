//! Lines and columns.
ghost use Rattle.std.specs.Prelude.{◌≡◌, ◌<◌, ◌^◌, ◌-◌, ◌∷◌, []};
ghost use Rattle.usda_lexer.specs.Places.{place_of, place_behind};

/// A place in a text.
#[derive(Clone, Copy, Debug, PartialEq, Eq)]
pub struct Place {
    /// The number of the line, from 1. A line feed ends a line.
    pub line: u64,
    /// The number of the byte in its line, from 1.
    pub column: u64,
}

fn behind(place: Place, c: u8) -> Place
    requires { (place.line < 2 ^ 64 - 1) × (place.column < 2 ^ 64 - 1) }
    ensures { result ≡ place_behind place (c ∷ []) }
{
    if c == b'\n' {
        Place {
            line: place.line + 1,
            column: 1,
        }
    } else {
        Place {
            line: place.line,
            column: place.column + 1,
        }
    }
}

/// The place of the byte with this number, from 0; behind the last byte where there is none.
pub fn place_of(source: &[u8], at: usize) -> Place
    ensures { result ≡ place_of source.now at }
{
    let mut place = Place { line: 1, column: 1 };
    let front = &source[..at.min(source.len())];
    for (i, c) in front.iter().enumerate() {
        place = behind(place, *c);
    }
    place
}
