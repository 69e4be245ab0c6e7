use crate::decimal::Num;
use crate::time::TimeCode;
use crate::type_name::TypeName;
use plain_data::{Items, Text};

/// A value of an attribute, of metadata or of a dictionary's entry.
///
/// A proper value is one whose dictionaries, at any depth, have their items in byte order of keys, each key once.
#[cycle(value)]
#[derive(Drop, Debug)]
pub enum Value {
    /// A value of `bool`.
    Bool(bool),
    /// A whole number: a value of a type of whole numbers, or a number without a type that is written as one.
    Whole(i128),
    /// A value of `half`, `float` or `double`, or another number without a type.
    Number(Num),
    /// A value of `timecode`.
    Time(TimeCode),
    /// A string, its escapes replaced by what they stand for: a value of `string` or `token`, or where there is no type.
    Text(Text),
    /// An asset without the `@` round it: a value of `asset`, or where there is no type.
    Asset(Text),
    /// A path without `<` and `>`: as it is written, or from the root down once an owner has it; only where there is no type.
    PathText(Text),
    /// A name that stands for itself; only where there is no type.
    Word(Text),
    /// Values between `(` and `)`. A matrix is a tuple of its rows.
    Tuple(Items<Value>),
    /// Values between `[` and `]`.
    Array(Items<Value>),
    /// A dictionary: its entries.
    Dict(Items<DictItem>),
    /// `None`: what is said is that there is no value, over all weaker values.
    Block,
}

/// An entry of a dictionary.
#[cycle(value)]
#[derive(Drop, Debug)]
pub struct DictItem {
    /// The key.
    pub key: Text,
    /// The type of its value.
    pub ty: DictType,
    /// What the key has: a value of that type, or again a dictionary.
    pub value: Value,
}

/// The type of a dictionary's entry.
#[derive(Clone, Copy, Debug, PartialEq, Eq)]
pub enum DictType {
    /// A type of values.
    Plain(TypeName),
    /// `dictionary`: the value is again a dictionary.
    Dictionary,
}

impl PartialEq for Value {
    ghost use Rattle.sdf_values.specs.Equality.{same_value, value_equiv};
    ghost use Rattle.sdf_values.specs.contracts.value.Value.{the_row};
    ghost use Rattle.std.specs.Cmp.{partial_equiv_from_equiv};

    ghost eq = { same_value the_row.coded };

    ghost laws = { partial_equiv_from_equiv (value_equiv the_row.coded) };

    fn eq(&self, other: &Value) -> bool {
        self.same(other)
    }
}

impl Eq for Value {
    ghost use Rattle.sdf_values.specs.Equality.{value_equiv};
    ghost use Rattle.sdf_values.specs.contracts.value.Value.{the_row};

    ghost laws = { value_equiv the_row.coded };
}

impl PartialEq for DictItem {
    ghost use Rattle.sdf_values.specs.Equality.{same_value, value_equiv};
    ghost use Rattle.sdf_values.specs.contracts.value.DictItem.{the_row};
    ghost use Rattle.std.specs.Cmp.{partial_equiv_from_equiv};

    ghost eq = { same_value the_row.coded };

    ghost laws = { partial_equiv_from_equiv (value_equiv the_row.coded) };

    fn eq(&self, other: &DictItem) -> bool {
        self.same(other)
    }
}

impl Eq for DictItem {
    ghost use Rattle.sdf_values.specs.Equality.{value_equiv};
    ghost use Rattle.sdf_values.specs.contracts.value.DictItem.{the_row};

    ghost laws = { value_equiv the_row.coded };
}
