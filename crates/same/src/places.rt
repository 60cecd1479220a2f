// Lines and columns.
ghost use Rattle.std.specs.Prelude.{◌≡◌, ◌≤◌};
ghost use Rattle.same.specs.Places.{next, place_of, Placed};

use crate::Place;

// The place behind a byte.
fn behind(p: Place, b: u8) -> Place
    requires { (p.line ≤ 9223372036854775808) × (p.column ≤ 9223372036854775808) }
    ensures { Placed (next (p.line, p.column) b) result.line result.column }
{
    match b {
        0x0A => Place {
            line: p.line + 1,
            column: 1,
        },
        // It goes on with a character.
        0x80..=0xBF => p,
        _ => Place {
            line: p.line,
            column: p.column + 1,
        },
    }
}

// The line and the column of a place in a text; past the end they are the end's.
pub fn place_of(text: &[u8], at: usize) -> Place
    ensures { Placed (place_of text.now at) result.line result.column }
{
    let end = at.min(text.len());
    let mut place = Place { line: 1, column: 1 };
    for b in &text[..end] {
        place = behind(place, *b);
    }
    place
}
