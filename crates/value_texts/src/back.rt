//! A value through its text and back.
ghost use Rattle.std.specs.Prelude.{◌≡◌, ◌≤◌, true};
ghost use Rattle.value_texts.specs.Backs.{GivesBack};
ghost use Rattle.value_texts.specs.Readable.{is_read_as, depth};
ghost use Rattle.usda_values.specs.declared.shape.Shape.TheVariants.{Dictionary};
ghost use Rattle.value_texts.specs.Writable.{is_writable};

use sdf_values::{RefusalKind, Value, print_value};
use std::alloc::Global;
use usda_lexer::Tokens;
use usda_values::{Shape, ValueFault, read_dict, read_shaped};

/// Prints a value and reads its text where this is expected: the value again, unless memory runs out.
///
/// The value has to be one that can be written and that is read as itself there, with at most 64 tuples, arrays and
/// dictionaries inside each other.
pub fn printed_and_read(alloc: Global, value: &Value, shape: Shape) -> Result<Value, ValueFault>
    requires writable { is_writable value.now ≡ true }
    requires readable { is_read_as value.now shape true ≡ true }
    requires levels { depth value.now ≤ 64 }
    ensures { GivesBack result value.now }
{
    let printed = print_value(alloc, value, 0)?;
    let source = printed.as_str();
    match Tokens::new(source.as_bytes()) {
        Ok(tokens) => {
            let mut tokens = tokens;
            read_shaped(alloc, shape, &mut tokens)
        }
        Err(_) => Err(ValueFault::Refused {
            kind: RefusalKind::NotUtf8,
            at: 0,
        }),
    }
}

/// Prints a dictionary and reads its text as one: the dictionary again, unless memory runs out.
pub fn dictionary_printed_and_read(alloc: Global, value: &Value) -> Result<Value, ValueFault>
    requires writable { is_writable value.now ≡ true }
    requires readable { is_read_as value.now Dictionary true ≡ true }
    requires levels { depth value.now ≤ 64 }
    ensures { GivesBack result value.now }
{
    let text = print_value(alloc, value, 0)?;
    let source = text.as_str();
    match Tokens::new(source.as_bytes()) {
        Ok(tokens) => {
            let mut tokens = tokens;
            read_dict(alloc, &mut tokens)
        }
        Err(_) => Err(ValueFault::Refused {
            kind: RefusalKind::NotUtf8,
            at: 0,
        }),
    }
}
