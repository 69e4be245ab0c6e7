//! Values of scene description: exact decimals, times and layer offsets, the types of values, and the values
//! themselves with their canonical text.
#![tactic(auto)]

mod conform;
mod copy;
mod decimal;
mod exact;
mod numeral;
mod offset;
mod offset_text;
mod parse;
mod print;
mod refusal;
mod same;
mod tens;
mod time;
mod type_name;
mod value;

pub use conform::{conforms, is_between, members_of};
pub use decimal::{Decimal, Num, NumberFault, with_sign};
pub use numeral::push_time;
pub use offset::{LayerOffset, OffsetRange};
pub use offset_text::push_offset;
pub use parse::{is_digit, is_mark, is_sign};
pub use print::{print_value, push_asset, push_blanks, push_string, push_type, push_value};
pub use refusal::RefusalKind;
pub use time::{MAX_UNITS, TimeCode, TimeRange};
pub use type_name::{
    ELEMENTS, ElementType, Matrix, Precision, Role, TypeName, Width, find_element,
};
pub use value::{DictItem, DictType, Value};
