//! What the words before a property's name say.
ghost use Rattle.std.specs.Prelude.{◌≡◌, Ok, OnErr};
ghost use Rattle.usda_lists.specs.Acts.{AsksNoMemory, Does};
ghost use Rattle.usda_statements.specs.Headings.{begun, with_custom, with_variability, as_relationship, with_type, with_brackets};

use sdf_values::{ELEMENTS, RefusalKind, TypeName, find_element};
use usda_lists::ListEdit;
use usda_values::PartFault;

/// What the words before a property's name say.
#[derive(Clone, Copy, Debug)]
pub struct Heading {
    /// The edit word; an explicit list where there is none.
    pub edit: ListEdit,
    /// Whether `custom` stands there.
    pub custom: bool,
    /// Whether `uniform` stands there.
    pub uniform: bool,
    /// The type of an attribute; none of a relationship.
    pub ty: Option<TypeName>,
}

impl Heading {
    /// A statement that begins with this edit word, or with none.
    pub fn new(edit: ListEdit) -> Heading
        ensures { result ≡ begun edit }
    {
        Heading {
            edit,
            custom: false,
            uniform: false,
            ty: None,
        }
    }

    /// Takes the word `custom`.
    pub fn set_custom(&mut self)
        ensures { self.new ≡ with_custom self.old }
    {
        self.custom = true;
    }

    /// Takes the word `uniform` or `varying`.
    pub fn set_variability(&mut self, word: &str)
        ensures { self.new ≡ with_variability word.now self.old }
    {
        self.uniform = word == "uniform";
    }

    /// Takes the word `rel`.
    pub fn set_relationship(&mut self)
        ensures { self.new ≡ as_relationship self.old }
    {
        self.ty = None;
    }

    /// Takes the word of an attribute's type. After a refusal nothing is changed.
    pub fn set_type(&mut self, word: &str) -> Result<(), PartFault>
        ensures answer { Does result self.new (with_type word.now self.old) }
        ensures kept { OnErr result (self.new ≡ self.old) }
        ensures sure { AsksNoMemory result }
    {
        match find_element(&ELEMENTS, word) {
            Some(element) => {
                self.ty = Some(TypeName::one(element));
                Ok(())
            }
            None => Err(PartFault::Refused(RefusalKind::UnknownType)),
        }
    }

    /// Takes the brackets behind the type, which make it one of arrays.
    pub fn set_array(&mut self)
        ensures { self.new ≡ with_brackets self.old }
    {
        if let Some(ty) = self.ty {
            self.ty = Some(TypeName {
                element: ty.element,
                array: true,
            });
        }
    }
}
