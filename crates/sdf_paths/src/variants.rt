//! Whether a text is the name of a variant.
ghost use Rattle.std.specs.Prelude.{◌≡◌};
ghost use Rattle.std.specs.Str.{chars};
ghost use Rattle.usd_names.specs.Names.{is_variant, spells_variant};
ghost use Rattle.sdf_paths.specs.Variants.{part_after, is_whole};

use usd_names::is_variant_character;

/// What is read of the name of a variant.
#[derive(Clone, Copy)]
pub enum VariantPart {
    /// Nothing.
    Start,
    /// The `.` in front.
    Dotted,
    /// One character at least.
    Run,
}

fn part_after(part: VariantPart, c: char) -> Option<VariantPart>
    ensures { result ≡ part_after part c }
{
    if let VariantPart::Start = part {
        if c == '.' {
            return Some(VariantPart::Dotted);
        }
    }
    if is_variant_character(c) {
        Some(VariantPart::Run)
    } else {
        None
    }
}

fn is_whole(part: VariantPart) -> bool
    ensures { result ≡ is_whole part }
{
    matches!(part, VariantPart::Run)
}

/// Whether the characters of a text are the name of a variant.
fn spells_variant(text: &str) -> bool
    ensures { result ≡ spells_variant (chars text.now) }
{
    let mut part = VariantPart::Start;
    for c in text.chars() {
        match part_after(part, c) {
            Some(next) => part = next,
            None => return false,
        }
    }
    is_whole(part)
}

/// Whether a text is the name of a variant.
pub fn is_variant(text: &str) -> bool
    ensures { result ≡ is_variant text.now }
{
    spells_variant(text)
}
