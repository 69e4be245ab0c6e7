//! Offset and scale of a reference, a payload or a sublayer.
ghost use Rattle.std.specs.Prelude.{◌≡◌};
ghost use Rattle.usda_lexer.specs.Meanings.{number_of};
ghost use Rattle.usda_lists.specs.Acts.{AsksNoMemory, Gives};
ghost use Rattle.usda_lists.specs.Offsets.{offset_key, whole_number, with_offset, with_scale, with_part, offset_act};

use sdf_values::{LayerOffset, Num, RefusalKind};
use usda_lexer::number_of;
use usda_values::{PartFault, whole_of};

/// What is said of the times of a reference, a payload or a sublayer.
#[derive(Clone, Copy, Debug, PartialEq, Eq)]
pub enum OffsetKey {
    /// What is added to times.
    Offset,
    /// By what times are multiplied before.
    Scale,
}

/// The key that a word is. `ReferenceData` where it is neither `offset` nor `scale`. Takes no memory.
pub fn offset_key(word: &str) -> Result<OffsetKey, PartFault>
    ensures answer { Gives result (offset_key word.now) }
    ensures sure { AsksNoMemory result }
{
    match word {
        "offset" => Ok(OffsetKey::Offset),
        "scale" => Ok(OffsetKey::Scale),
        _ => Err(PartFault::Refused(RefusalKind::ReferenceData)),
    }
}

/// The whole number that a number is, if it is one within 128 signed bits; `inf` and `nan` are none.
pub fn whole_number(x: Num) -> Option<i128>
    ensures { result ≡ whole_number x }
{
    match x {
        Num::Finite(d) => whole_of(d),
        _ => None,
    }
}

fn with_offset(n: i128, o: LayerOffset) -> Result<LayerOffset, PartFault>
    ensures answer { Gives result (with_offset n o) }
    ensures sure { AsksNoMemory result }
{
    if n.unsigned_abs() > 1_000_000_000 {
        return Err(PartFault::Refused(RefusalKind::OffsetRange));
    }
    Ok(LayerOffset {
        offset: n as i64,
        scale: o.scale,
    })
}

fn with_scale(n: i128, o: LayerOffset) -> Result<LayerOffset, PartFault>
    ensures answer { Gives result (with_scale n o) }
    ensures sure { AsksNoMemory result }
{
    if n < 1 || n > 1_000_000 {
        return Err(PartFault::Refused(RefusalKind::OffsetRange));
    }
    Ok(LayerOffset {
        offset: o.offset,
        scale: n as i64,
    })
}

fn with_part(key: OffsetKey, n: Option<i128>, o: LayerOffset) -> Result<LayerOffset, PartFault>
    ensures answer { Gives result (with_part key n o) }
    ensures sure { AsksNoMemory result }
{
    match (key, n) {
        (_, None) => Err(PartFault::Refused(RefusalKind::OffsetRange)),
        (OffsetKey::Offset, Some(n)) => with_offset(n, o),
        (OffsetKey::Scale, Some(n)) => with_scale(n, o),
    }
}

/// An offset with the number token of a key. `OffsetRange` where an offset is not whole and within 1,000,000,000 of 0, or a scale not
/// whole and from 1 to 1,000,000; `NumberTooLong` where the text is no number that is kept. Takes no memory.
pub fn set_offset(key: OffsetKey, text: &str, o: LayerOffset) -> Result<LayerOffset, PartFault>
    ensures answer { Gives result (offset_act key text.now o) }
    ensures sure { AsksNoMemory result }
{
    match number_of(text) {
        None => Err(PartFault::Refused(RefusalKind::NumberTooLong)),
        Some(x) => with_part(key, whole_number(x), o),
    }
}
