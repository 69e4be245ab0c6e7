//! Arcs are copied and compared as values.
use crate::arc_map::ArcMap;
use plain_data::{ExactClone, ExactEq};

impl ExactClone for ArcMap {
    ghost copy_is_same = { λ x y h. h };
}

impl ExactEq for ArcMap {
    ghost use Rattle.path_maps.specs.Same.{arc_map_same};

    ghost equal_is_same = { arc_map_same };
}
