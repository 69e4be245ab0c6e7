//! How far a name goes.
ghost use Rattle.std.specs.Prelude.{◌≡◌, ◌&&◌, ◌==◌, false};
ghost use Rattle.std.specs.Str.{IsCharBoundary};
ghost use Rattle.usda_lexer.specs.Names.{name_len};

use usd_names::goes_on;

/// Whether the character is a colon behind an identifier.
fn is_colon(begun: bool, c: char) -> bool
    ensures { result ≡ (begun && c == 58) }
{
    begun && c == ':'
}

/// How many bytes in front are a name; 0 where none begins.
pub fn name_len(text: &str) -> usize
    ensures value { result ≡ name_len text.now }
    ensures boundary { IsCharBoundary text.now result }
{
    let mut begun = false;
    let mut end = 0;
    let mut at = 0;
    for c in text.chars() {
        if is_colon(begun, c) {
            begun = false;
            at += c.len_utf8();
        } else if goes_on(begun, c) {
            begun = true;
            at += c.len_utf8();
            end = at;
        } else {
            return end;
        }
    }
    end
}
