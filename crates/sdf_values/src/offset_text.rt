//! The text of an offset behind an item.
ghost use Rattle.std.specs.Prelude.{◌≡◌, ◌++◌, OnOk, false, string_bytes};
ghost use Rattle.sdf_values.specs.Print.{offset_text, unless_identity};
ghost use Rattle.sdf_values.specs.Scales.{is_identity, is_one, is_zero};

use std::alloc::AllocError;

fn is_zero(n: i64) -> bool
    ensures { result ≡ is_zero n }
{
    n == 0
}

fn is_one(n: i64) -> bool
    ensures { result ≡ is_one n }
{
    n == 1
}

fn is_identity(offset: i64, scale: i64) -> bool
    ensures { result ≡ is_identity (record { offset = offset; scale = scale }) }
{
    is_zero(offset) && is_one(scale)
}

fn push_shift(out: &mut String, offset: i64, scale: i64) -> Result<(), AllocError>
    ensures { OnOk result (string_bytes out.new ≡ string_bytes out.old
        ++ unless_identity false (record { offset = offset; scale = scale })) }
{
    write!(out, " (offset = {offset}; scale = {scale})")
}

/// Appends an offset and a scale behind an item, unless together they change no time. After want of memory the text is of no use.
pub fn push_offset(out: &mut String, offset: i64, scale: i64) -> Result<(), AllocError>
    ensures { OnOk result (string_bytes out.new ≡ string_bytes out.old
        ++ offset_text (record { offset = offset; scale = scale })) }
{
    if is_identity(offset, scale) {
        Ok(())
    } else {
        push_shift(out, offset, scale)
    }
}
