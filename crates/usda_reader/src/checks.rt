//! What is judged of a text's bytes before its first token.
ghost use Rattle.std.specs.Prelude.{◌≡◌, Some};
ghost use Rattle.usda_drafts.specs.Refusals.{refused};
ghost use Rattle.usda_reader.specs.Checks.{is_blank_line, begins_with, has_header, foreign_check, header_check, text_check, first_check};

use sdf_values::RefusalKind;
use usda_drafts::Refused;

/// The most bytes of a layer.
pub const MAX_BYTES: usize = 67_108_864;

const HEADER: &[u8; 9] = b"#usda 1.0";

/// Whether only blanks stand up to the end of the line, or of the text.
fn is_blank_line(bytes: &[u8]) -> bool
    ensures { result ≡ is_blank_line bytes.now }
{
    for (i, c) in bytes.iter().enumerate() {
        if *c == b'\n' {
            return true;
        }
        if *c != b' ' && *c != b'\t' && *c != b'\r' {
            return false;
        }
    }
    true
}

fn begins_with(word: &[u8], bytes: &[u8]) -> bool
    ensures { result ≡ begins_with word.now bytes.now }
{
    word.len() <= bytes.len() && &bytes[..word.len()] == word
}

/// Whether the first line is that of a text layer.
fn has_header(bytes: &[u8]) -> bool
    ensures { result ≡ has_header bytes.now }
{
    begins_with(HEADER, bytes) && is_blank_line(&bytes[9..])
}

fn refused_at(kind: RefusalKind, at: usize) -> Option<Refused>
    ensures { result ≡ Some (refused kind at) }
{
    Some(Refused { kind, at })
}

/// What is no text of the format by its size or its first bytes.
#[tactic(auto, unfolding(crate::specs::Checks::foreign_check))]
fn foreign_check(bytes: &[u8]) -> Option<Refused>
    ensures { result ≡ foreign_check bytes.now }
{
    if bytes.len() > MAX_BYTES {
        return refused_at(RefusalKind::TooLong, 0);
    }
    if begins_with(b"PXR-USDC", bytes) {
        return refused_at(RefusalKind::Crate, 0);
    }
    if begins_with(b"PK\x03\x04", bytes) {
        return refused_at(RefusalKind::Package, 0);
    }
    None
}

#[tactic(auto, unfolding(crate::specs::Checks::header_check))]
fn header_check(bytes: &[u8]) -> Option<Refused>
    ensures { result ≡ header_check bytes.now }
{
    if has_header(bytes) {
        None
    } else {
        refused_at(RefusalKind::BadHeader, 0)
    }
}

#[tactic(auto, unfolding(crate::specs::Checks::text_check))]
fn text_check(bytes: &[u8]) -> Option<Refused>
    ensures { result ≡ text_check bytes.now }
{
    match str::from_utf8(bytes) {
        Ok(_text) => header_check(bytes),
        Err(e) => refused_at(RefusalKind::NotUtf8, e.valid_up_to()),
    }
}

/// The first of these that holds: more than 67,108,864 bytes, the first bytes of a binary layer or of a package, a byte that is not
/// UTF-8, another first line.
#[tactic(auto, unfolding(crate::specs::Checks::first_check))]
pub fn first_check(bytes: &[u8]) -> Option<Refused>
    ensures { result ≡ first_check bytes.now }
{
    match foreign_check(bytes) {
        Some(refused) => Some(refused),
        None => text_check(bytes),
    }
}
