//! Names of layers on closed texts, each record of examples as the clauses of a function that does nothing.
ghost use Rattle.std.specs.Prelude.{◌≡◌, [], codes};
ghost use Rattle.asset_names.specs.Anchoring.{anchored_name, kind_of, normal_name};
ghost use Rattle.asset_names.specs.declared.name.NameKind.TheVariants as kind;

/// Relative texts: empty segments and `.` are left out, and `..` takes a folder away or stays in front.
pub fn relative_names_are_told()
    ensures a_file { normal_name (codes "a.usda") ≡ codes "a.usda" }
    ensures all_at_once { normal_name (codes "a//b/./c/../d") ≡ codes "a/b/d" }
    ensures here_in_front { normal_name (codes "./a.usda") ≡ codes "a.usda" }
    ensures slash_behind { normal_name (codes "a/b//") ≡ codes "a/b" }
    ensures here_behind { normal_name (codes "a/.") ≡ codes "a" }
    ensures up_in_front { normal_name (codes "../../a") ≡ codes "../../a" }
    ensures more_up_than_down { normal_name (codes "a/../../b/..") ≡ codes ".." }
    ensures up_behind_up { normal_name (codes "../a/../../b") ≡ codes "../../b" }
    ensures nothing { normal_name [] ≡ [] }
    ensures here { normal_name (codes ".") ≡ [] }
    ensures there_and_back { normal_name (codes "a/b/../..") ≡ [] }
    // Three dots are a name, and so are dots in a name.
    ensures three_dots { normal_name (codes ".../a..b/.c/d.") ≡ codes ".../a..b/.c/d." }
{}

/// Absolute texts: nothing is above the root.
pub fn absolute_names_are_told()
    ensures a_file { normal_name (codes "/a/b.usda") ≡ codes "/a/b.usda" }
    ensures root { normal_name (codes "/") ≡ codes "/" }
    ensures slashes { normal_name (codes "///") ≡ codes "/" }
    ensures above_root { normal_name (codes "/..") ≡ codes "/" }
    ensures far_above_root { normal_name (codes "/a/../../../b") ≡ codes "/b" }
    ensures slashes_and_dots { normal_name (codes "//a/.//b/../") ≡ codes "/a" }
{}

/// Assets in layers: beside the layer, in folders above it, past the first folder of a relative layer, and past the root.
pub fn anchored_names_are_told()
    ensures beside { anchored_name (codes "sets/room.usda") (codes "chair.usda") ≡ codes "sets/chair.usda" }
    ensures beside_by_a_dot { anchored_name (codes "sets/room.usda") (codes "./chair.usda") ≡ codes "sets/chair.usda" }
    ensures below { anchored_name (codes "/sets/room.usda") (codes "props/chair.usda") ≡ codes "/sets/props/chair.usda" }
    ensures above { anchored_name (codes "/sets/room.usda") (codes "../props/chair.usda") ≡ codes "/props/chair.usda" }
    ensures above_first { anchored_name (codes "sets/room.usda") (codes "../../chair.usda") ≡ codes "../chair.usda" }
    ensures above_root { anchored_name (codes "/sets/room.usda") (codes "../../../chair.usda") ≡ codes "/chair.usda" }
    ensures in_no_folder { anchored_name (codes "room.usda") (codes "chair.usda") ≡ codes "chair.usda" }
    ensures out_of_no_folder { anchored_name (codes "room.usda") (codes "../chair.usda") ≡ codes "../chair.usda" }
    ensures behind_up { anchored_name (codes "../room.usda") (codes "../chair.usda") ≡ codes "../../chair.usda" }
    ensures absolute { anchored_name (codes "sets/room.usda") (codes "/a/../chair.usda") ≡ codes "/chair.usda" }
    ensures itself { anchored_name (codes "sets/room.usda") (codes "room.usda") ≡ codes "sets/room.usda" }
    // An empty asset is its layer's folder; `AssetId::anchor` refuses it.
    ensures folder { anchored_name (codes "sets/room.usda") [] ≡ codes "sets" }
{}

/// Kinds of layers by their names, the case of letters counting.
pub fn kinds_are_told()
    ensures text { kind_of (codes "a.usda") ≡ kind.Plain }
    ensures either { kind_of (codes "a.usd") ≡ kind.Plain }
    ensures binary { kind_of (codes "a.usdc") ≡ kind.Crate }
    ensures capitals { kind_of (codes "a.USDC") ≡ kind.Plain }
    ensures package { kind_of (codes "a/b.usdz") ≡ kind.Package }
    ensures in_a_package { kind_of (codes "a.usdz[b.usda]") ≡ kind.Package }
    ensures binary_in_a_package { kind_of (codes "a.usdz[b.usdc]") ≡ kind.Package }
    ensures folder { kind_of (codes "a.usdz/b.usda") ≡ kind.Plain }
    ensures bare_end { kind_of (codes ".usdc") ≡ kind.Crate }
{}
