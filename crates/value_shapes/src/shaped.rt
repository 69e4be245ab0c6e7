//! A value as one of a type, and a value that is read as one.
ghost use Rattle.std.specs.Prelude.{◌≡◌, true, IfOk};
ghost use Rattle.sdf_values.specs.Conforms.{conforms};
ghost use Rattle.sdf_values.specs.declared.value.Value.{Value};
ghost use Rattle.usda_values.specs.Drafts.{draft_of};
ghost use Rattle.usda_values.specs.Reads.{AnswersRead};
ghost use Rattle.usda_values.specs.Shaping.{AnswersShape, take_shape};
ghost use Rattle.usda_values.specs.declared.level.Place.TheVariants as place;
ghost use Rattle.usda_values.specs.declared.shape.Shape.TheVariants.{Typed};
ghost use Rattle.value_shapes.specs.Held.{is_held};
ghost use Rattle.value_shapes.specs.Laws.{GivesOnly};
ghost use Rattle.value_shapes.specs.Meanings.{SameMeaning};

use sdf_values::{TypeName, Value};
use std::alloc::Global;
use usda_lexer::Tokens;
use usda_values::{Shape, ValueFault, read_shaped, take_shape};

/// The value of the type that means the same as this one. A value of the type is answered as it is.
///
/// Where some value of the type means the same, it is answered, and no value is refused, unless memory runs out. That
/// clause speaks of values whose numbers are held as a program holds them: `numbers_are_held` shows this of each value.
/// The refusal is that of `take_shape`: its kind is the first that a reader of the same tokens would meet, its `at` is 0.
pub fn value_of_type(alloc: Global, ty: TypeName, v: Value) -> Result<Value, ValueFault>
    ensures of_the_type { IfOk result (λ w. conforms w ty ≡ true) }
    ensures of_the_meaning { IfOk result (λ w. SameMeaning v w) }
    ensures kept { conforms v ty ≡ true → IfOk result (λ w. w ≡ v) }
    // where some value of the type means the same, it is answered
    ensures only { (w : Value) → is_held v ≡ true → is_held w ≡ true → SameMeaning v w → conforms w ty ≡ true → GivesOnly result w }
    // the answer and the refusal by the definition
    ensures answer { AnswersShape result (take_shape ty v) }
{
    take_shape(alloc, ty, v)
}

/// Reads one value of the type, directly behind the `=` of a statement. After a refusal the tokens stand at the one that
/// was refused, and after want of memory they are of no use.
pub fn read_of_type(
    alloc: Global,
    ty: TypeName,
    tokens: &mut Tokens<'_>,
) -> Result<Value, ValueFault>
    ensures of_the_type { IfOk result (λ w. conforms w ty ≡ true) }
    ensures source { tokens.new.source ≡ tokens.old.source }
    // the value and what is left, or the first refusal with its place, by the definition
    ensures answer { AnswersRead result (draft_of place.Value (Typed ty)) tokens.old tokens.new }
{
    read_shaped(alloc, Shape::Typed(ty), tokens)
}
