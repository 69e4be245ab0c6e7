//! The kind of a layer by its name.
ghost use Rattle.std.specs.Prelude.{◌≡◌};
ghost use Rattle.asset_names.specs.Anchoring.{kind_of, ends_with, begins_with, has_inside};

use crate::name::NameKind;

/// What kind of layer a name is for, by the name alone.
pub fn kind_of(name: &[u8]) -> NameKind
    ensures { result ≡ kind_of name.now }
{
    if ends_with(name, b".usdc") {
        NameKind::Crate
    } else if ends_with(name, b".usdz") || has_inside(name, b".usdz[") {
        NameKind::Package
    } else {
        NameKind::Plain
    }
}

fn ends_with(name: &[u8], end: &[u8]) -> bool
    ensures { result ≡ ends_with name.now end.now }
{
    let tail = &name[name.len().saturating_sub(end.len())..];
    tail == end
}

fn begins_with(name: &[u8], front: &[u8]) -> bool
    ensures { result ≡ begins_with name.now front.now }
{
    let head = &name[..name.len().min(front.len())];
    head == front
}

fn has_inside(name: &[u8], part: &[u8]) -> bool
    ensures { result ≡ has_inside name.now part.now }
{
    for i in 0..name.len() {
        if begins_with(&name[i..], part) {
            return true;
        }
    }
    begins_with(&[], part)
}
