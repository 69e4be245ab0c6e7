use plain_data::Text;
use sdf_paths::Path;
use sdf_values::Num;

/// An offset and a scale as they are written, in range or not.
#[derive(Clone, Copy, Debug, PartialEq, Eq)]
pub struct WrittenOffset {
    /// What is added to times; 0 where nothing is written.
    pub offset: Num,
    /// By what times are multiplied before; 1 where nothing is written.
    pub scale: Num,
}

/// An item of references or payloads as it is written.
#[derive(Debug, Drop)]
pub struct WrittenReference {
    /// The asset; none where nothing or the empty asset is written.
    pub asset: Option<Text>,
    /// The target, with its selections; none where nothing or `<>` is written.
    pub path: Option<Path>,
    /// How times of the target become those of the layer.
    pub offset: WrittenOffset,
}

/// A sublayer as it is written.
#[derive(Debug, Drop)]
pub struct WrittenSubLayer {
    /// The asset as it is written.
    pub asset: Text,
    /// How times of the sublayer become those of the layer.
    pub offset: WrittenOffset,
}
