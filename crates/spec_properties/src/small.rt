use plain_data::Text;
use sdf_values::{TimeCode, Value};
use spec_tables::OrderedTable;

/// Metadata: values by key, in byte order of keys.
pub type Meta = OrderedTable<Text, Value>;

/// Values of an attribute by time, in order of time.
pub type Samples = OrderedTable<TimeCode, Value>;

/// The variants that are selected, by variant set, in byte order of sets. The empty variant selects none.
pub type Selections = OrderedTable<Text, Text>;
