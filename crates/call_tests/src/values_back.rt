//! Values through their texts and back.
use plain_data::{Items, Text};
use sdf_values::{Decimal, DictItem, DictType, ElementType, Num, TypeName, Value};
use std::test::Fail;
use usda_values::Shape;
use value_texts::{dictionary_printed_and_read, printed_and_read};

#[test]
fn a_whole_number_comes_back(rt: HostRuntime) -> Result<(), Fail> {
    let value = Value::Whole(-12);
    let back = printed_and_read(rt.alloc(), &value, Shape::Metadata)?;
    assert!(rt; back == value);
    Ok(())
}

#[test]
fn a_fraction_comes_back(rt: HostRuntime) -> Result<(), Fail> {
    let value = Value::Number(Num::Finite(Decimal {
        digits: 125,
        exp: -2,
    }));
    let back = printed_and_read(rt.alloc(), &value, Shape::Untyped)?;
    assert!(rt; back == value);
    Ok(())
}

#[test]
fn the_block_comes_back(rt: HostRuntime) -> Result<(), Fail> {
    let back = printed_and_read(rt.alloc(), &Value::Block, Shape::Untyped)?;
    assert!(rt; back.is_block());
    Ok(())
}

#[test]
fn a_dictionary_comes_back(rt: HostRuntime) -> Result<(), Fail> {
    let alloc = rt.alloc();
    let mut items = Items::new(alloc);
    items.push(DictItem {
        key: Text::of(alloc, "a")?,
        ty: DictType::Plain(TypeName {
            element: ElementType::Int,
            array: false,
        }),
        value: Value::Whole(1),
    })?;
    let value = Value::Dict(items);
    let back = dictionary_printed_and_read(alloc, &value)?;
    assert!(rt; back == value);
    Ok(())
}
