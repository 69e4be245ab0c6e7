//! What is read and taken as which value, told by the variants.
use sdf_values::{
    DictItem, DictType, ElementType, Num, Precision, RefusalKind, TypeName, Value, Width,
};
use std::alloc::Global;
use std::test::Fail;
use usda_lexer::Tokens;
use usda_values::{ValueFault, read_dict, read_value};
use value_shapes::{numbers_are_held, read_of_type, value_of_type};

/// A value of which nothing is known.
fn untyped(alloc: Global, text: &str) -> Result<Value, Fail> {
    let Ok(mut tokens) = Tokens::new(text.as_bytes()) else {
        return Err(Fail::from("no UTF-8"));
    };
    match read_value(alloc, &mut tokens) {
        Ok(value) => Ok(value),
        Err(_) => Err(Fail::from("refused")),
    }
}

/// A value of a type of one element.
fn typed(alloc: Global, element: ElementType, text: &str) -> Result<Value, Fail> {
    let Ok(mut tokens) = Tokens::new(text.as_bytes()) else {
        return Err(Fail::from("no UTF-8"));
    };
    let ty = TypeName {
        element,
        array: false,
    };
    match read_of_type(alloc, ty, &mut tokens) {
        Ok(value) => Ok(value),
        Err(_) => Err(Fail::from("refused")),
    }
}

/// What is told of a value.
#[derive(Clone, Copy)]
enum Told {
    Whole(i128),
    Number { digits: i128, exp: i16 },
    Infinite,
    Truth,
    Word(&'static str),
    Block,
    Time(i128),
}

/// The value is told by this.
fn is_told(value: &Value, told: &Told) -> bool {
    match (value, told) {
        (Value::Whole(n), Told::Whole(number)) => n == number,
        (Value::Number(Num::Finite(d)), Told::Number { digits, exp }) => {
            d.digits == *digits && d.exp == *exp
        }
        (Value::Number(Num::Inf), Told::Infinite) => true,
        (Value::Bool(b), Told::Truth) => *b,
        (Value::Word(text), Told::Word(word)) => text.as_str() == *word,
        (Value::Block, Told::Block) => true,
        (Value::Time(time), Told::Time(units)) => time.units == *units,
        _ => false,
    }
}

fn is_whole(value: &Value, number: i128) -> bool {
    is_told(value, &Told::Whole(number))
}

fn is_number(value: &Value, digits: i128, exp: i16) -> bool {
    is_told(value, &Told::Number { digits, exp })
}

/// Values of which nothing is known. Two to 127 is about 1.7 times ten to 38.
static UNTYPED: [(&str, Told); 10] = [
    ("1", Told::Whole(1)),
    ("-0", Told::Whole(0)),
    ("1.0", Told::Number { digits: 1, exp: 0 }),
    ("1e2", Told::Number { digits: 1, exp: 2 }),
    ("0.5", Told::Number { digits: 5, exp: -1 }),
    (
        "100000000000000000000000000000000000000",
        Told::Whole(100_000_000_000_000_000_000_000_000_000_000_000_000),
    ),
    (
        "200000000000000000000000000000000000000",
        Told::Number { digits: 2, exp: 38 },
    ),
    ("inf", Told::Infinite),
    ("true", Told::Word("true")),
    ("None", Told::Block),
];

fn is_read_as(alloc: Global, text: &str, told: &Told) -> Result<bool, Fail> {
    let value = untyped(alloc, text)?;
    Ok(is_told(&value, told))
}

#[test]
fn values_of_no_type(rt: HostRuntime) -> Result<(), Fail> {
    for (text, told) in &UNTYPED {
        assert!(rt; is_read_as(rt.alloc(), text, told)?);
    }
    Ok(())
}

#[test]
fn true_of_a_type_is_a_truth_value(rt: HostRuntime) -> Result<(), Fail> {
    let value = typed(rt.alloc(), ElementType::Bool, "true")?;
    assert!(rt; is_told(&value, &Told::Truth));
    Ok(())
}

fn dictionary(alloc: Global, text: &str) -> Result<Value, Fail> {
    let Ok(mut tokens) = Tokens::new(text.as_bytes()) else {
        return Err(Fail::from("no UTF-8"));
    };
    match read_dict(alloc, &mut tokens) {
        Ok(value) => Ok(value),
        Err(_) => Err(Fail::from("refused")),
    }
}

fn is_string_type(ty: DictType) -> bool {
    match ty {
        DictType::Plain(ty) => !ty.array && matches!(ty.element, ElementType::String),
        DictType::Dictionary => false,
    }
}

fn is_text(value: &Value, words: &str) -> bool {
    match value {
        Value::Text(text) => text.as_str() == words,
        _ => false,
    }
}

/// The only entry of a dictionary.
fn only_entry(value: &Value) -> Option<&DictItem> {
    match value {
        Value::Dict(items) => { if items.len() == 1 { items.get(0) } else { None } }
        _ => None,
    }
}

#[test]
fn a_dictionary_has_its_entry(rt: HostRuntime) -> Result<(), Fail> {
    let value = dictionary(rt.alloc(), "{ string s = \"y\" }")?;
    let Some(entry) = only_entry(&value) else {
        return Err(Fail::from("not one entry"));
    };
    assert!(rt;
        entry.key.as_str() == "s" && is_string_type(entry.ty) && is_text(&entry.value, "y")
    );
    Ok(())
}

/// So many tuples inside each other, with a 1 in the innermost.
fn nested(alloc: Global, levels: usize) -> Result<String, Fail> {
    let mut text = String::new(alloc);
    for _level in 0..levels {
        text.push('(')?;
    }
    text.push('1')?;
    for _level in 0..levels {
        text.push(')')?;
    }
    Ok(text)
}

/// The only member of a tuple.
fn only_member(value: &Value) -> Option<&Value> {
    match value {
        Value::Tuple(items) => { if items.len() == 1 { items.get(0) } else { None } }
        _ => None,
    }
}

/// What stands so many tuples deep.
fn inside(value: &Value, levels: usize) -> Option<&Value> {
    let mut inner = value;
    for _level in 0..levels {
        inner = only_member(inner)?;
    }
    Some(inner)
}

#[test]
fn tuples_nest_64_deep(rt: HostRuntime) -> Result<(), Fail> {
    let text = nested(rt.alloc(), 64)?;
    let value = untyped(rt.alloc(), text.as_str())?;
    let Some(inner) = inside(&value, 64) else {
        return Err(Fail::from("no tuples"));
    };
    assert!(rt; is_whole(inner, 1));
    Ok(())
}

/// The kind and the place of a refusal.
fn refusal(alloc: Global, text: &str) -> Result<(RefusalKind, usize), Fail> {
    let Ok(mut tokens) = Tokens::new(text.as_bytes()) else {
        return Err(Fail::from("no UTF-8"));
    };
    match read_value(alloc, &mut tokens) {
        Err(ValueFault::Refused { kind, at }) => Ok((kind, at)),
        _ => Err(Fail::from("not refused")),
    }
}

#[test]
fn the_65th_tuple_is_too_deep(rt: HostRuntime) -> Result<(), Fail> {
    let text = nested(rt.alloc(), 65)?;
    let (kind, at) = refusal(rt.alloc(), text.as_str())?;
    assert!(rt; kind == RefusalKind::TooDeep && at == 64);
    Ok(())
}

/// What is read without a type, as one of this type.
fn shaped(alloc: Global, element: ElementType, text: &str) -> Result<Value, Fail> {
    let ty = TypeName {
        element,
        array: false,
    };
    let value = untyped(alloc, text)?;
    match value_of_type(alloc, ty, value) {
        Ok(value) => Ok(value),
        Err(_) => Err(Fail::from("refused")),
    }
}

/// Values of no type, each taken as one of a type.
static TAKEN: [(ElementType, &str, Told); 3] = [
    (ElementType::Bool, "true", Told::Truth),
    (
        ElementType::Real(Precision::Double),
        "120",
        Told::Number { digits: 12, exp: 1 },
    ),
    (
        ElementType::Timecode,
        "0.5",
        Told::Time(500_000_000_000_000_000),
    ),
];

fn is_taken_as(alloc: Global, element: ElementType, text: &str, told: &Told) -> Result<bool, Fail> {
    let value = shaped(alloc, element, text)?;
    Ok(is_told(&value, told))
}

#[test]
fn values_are_taken_as_a_type(rt: HostRuntime) -> Result<(), Fail> {
    for (element, text, told) in &TAKEN {
        assert!(rt; is_taken_as(rt.alloc(), *element, text, told)?);
    }
    Ok(())
}

fn are_one_and_a_half(value: &Value) -> bool {
    match value {
        Value::Tuple(items) => match (items.get(0), items.get(1)) {
            (Some(first), Some(second)) => {
                items.len() == 2 && is_number(first, 1, 0) && is_number(second, 5, -1)
            }
            _ => false,
        },
        _ => false,
    }
}

#[test]
fn members_are_taken_one_by_one(rt: HostRuntime) -> Result<(), Fail> {
    let pair = ElementType::Reals(Precision::Double, Width::Two);
    let value = shaped(rt.alloc(), pair, "(1, 0.5)")?;
    assert!(rt; are_one_and_a_half(&value));
    Ok(())
}

#[test]
fn a_number_with_a_point_is_no_int(rt: HostRuntime) -> Result<(), Fail> {
    let value = untyped(rt.alloc(), "1.0")?;
    let ty = TypeName {
        element: ElementType::Int,
        array: false,
    };
    match value_of_type(rt.alloc(), ty, value) {
        Err(ValueFault::Refused { kind, at }) => {
            assert!(rt; kind == RefusalKind::ValueShape && at == 0);
            Ok(())
        }
        _ => Err(Fail::from("not refused")),
    }
}

#[test]
fn each_number_is_held(rt: HostRuntime) -> Result<(), Fail> {
    let value = untyped(rt.alloc(), "(1, 0.5, inf)")?;
    numbers_are_held(&value);
    Ok(())
}
