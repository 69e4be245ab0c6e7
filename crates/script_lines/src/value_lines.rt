//! Lines that give and take values of attributes.
ghost use Rattle.script_words.specs.Answers.{Finds};
ghost use Rattle.script_lines.specs.ValueLines.{set_line, clear_line, sample_line, unsample_line};

use crate::line::Line;
use crate::places::{changed, prim_base, target_at};
use edit_batches::Op;
use script_words::{LineFault, number_at, value_in};
use std::alloc::Global;

/// Behind `set`: a layer, a path and a value.
#[tactic(auto, unfolding(crate::specs::ValueLines::set_line))]
pub fn set_line(alloc: Global, bytes: &[u8]) -> Result<Line, LineFault>
    ensures { Finds result (set_line bytes.now) }
{
    let (layer, path, rest) = target_at(alloc, bytes)?;
    let base = read_or_drop!(prim_base(&path), (layer, path), LineFault::NoMemory);
    let value = read_or_drop!(value_in(alloc, &base, rest), (layer, path, base));
    Ok(Line::Change(Op::SetDefault { layer, path, value }))
}

/// Behind `clear`: a layer and a path.
#[tactic(auto, unfolding(crate::specs::ValueLines::clear_line))]
pub fn clear_line(alloc: Global, bytes: &[u8]) -> Result<Line, LineFault>
    ensures { Finds result (clear_line bytes.now) }
{
    let (layer, path, rest) = target_at(alloc, bytes)?;
    changed(Op::ClearDefault { layer, path }, rest)
}

/// Behind `sample`: a layer, a path, a time and a value.
#[tactic(auto, unfolding(crate::specs::ValueLines::sample_line))]
pub fn sample_line(alloc: Global, bytes: &[u8]) -> Result<Line, LineFault>
    ensures { Finds result (sample_line bytes.now) }
{
    let (layer, path, rest) = target_at(alloc, bytes)?;
    let (time, rest) = read_or_drop!(number_at(rest), (layer, path));
    let base = read_or_drop!(prim_base(&path), (layer, path), LineFault::NoMemory);
    let value = read_or_drop!(value_in(alloc, &base, rest), (layer, path, base));
    Ok(Line::Change(Op::SetSample {
        layer,
        path,
        time,
        value,
    }))
}

/// Behind `unsample`: a layer, a path and a time.
#[tactic(auto, unfolding(crate::specs::ValueLines::unsample_line))]
pub fn unsample_line(alloc: Global, bytes: &[u8]) -> Result<Line, LineFault>
    ensures { Finds result (unsample_line bytes.now) }
{
    let (layer, path, rest) = target_at(alloc, bytes)?;
    let (time, rest) = read_or_drop!(number_at(rest), (layer, path));
    changed(Op::ClearSample { layer, path, time }, rest)
}
