//! A property to which statements add.
ghost use Rattle.std.specs.Prelude.{◌≡◌, OnOk, OnErr};
ghost use Rattle.usda_lists.specs.Acts.{AsksNoMemory, Does, Gives};
ghost use Rattle.usda_statements.specs.PropertyDrafts.{no_marks, no_property, new_property, same_type, is_attribute_of, joined_to, joined, property_of, default_act, with_default, samples_act, with_sample, list_act, with_path, path_act, with_list_closed, meta_comment_act, meta_key_act, meta_act, is_in_hand};

use crate::heading::Heading;
use list_ops::ListOp;
use plain_data::Text;
use sdf_paths::Path;
use sdf_values::{RefusalKind, TimeCode, TypeName, Value};
use spec_properties::{Meta, Property, Samples};
use std::alloc::{AllocError, Global};
use std::mem;
use usda_fields::{KeyRule, judge_key, put_comment, put_value};
use usda_lexer::path_text;
use usda_lists::{GivenLists, ListEdit, close_paths, open_list, push_item, target_from};
use usda_values::PartFault;

/// What may be said of a property once, and was.
#[derive(Clone, Copy, Debug)]
pub struct PropertyMarks {
    /// Whether its samples were given.
    pub sampled: bool,
    /// Which lists of its connections or targets were given.
    pub lists: GivenLists,
}

/// The property of the statement in hand: what is said of it so far. After a fault it is of no use.
#[derive(Debug, Drop)]
pub struct PropertyDraft {
    /// Its name; empty where no property is in hand.
    pub name: Text,
    /// The edit word of the statement.
    pub edit: ListEdit,
    /// The type of an attribute; none of a relationship.
    pub ty: Option<TypeName>,
    /// Whether some statement of it says `custom`.
    pub custom: bool,
    /// Whether some statement of it says `uniform`.
    pub uniform: bool,
    /// The default of an attribute, once it is given.
    pub default: Option<Value>,
    /// The samples of an attribute that were read, by time.
    pub samples: Samples,
    /// The connections of an attribute, the targets of a relationship.
    pub paths: ListOp<Path>,
    /// The metadata that was read, by key.
    pub meta: Meta,
    /// What was given of that which may be given once.
    pub marks: PropertyMarks,
}

impl PropertyMarks {
    /// Nothing was given.
    pub fn none() -> PropertyMarks
        ensures { result ≡ no_marks }
    {
        PropertyMarks {
            sampled: false,
            lists: GivenLists::none(),
        }
    }
}

/// Whether two types are one: each has one name.
fn same_type(a: TypeName, b: TypeName) -> bool
    ensures { result ≡ same_type a b }
{
    a.element.name() == b.element.name() && (if a.array { b.array } else { !b.array })
}

fn is_attribute_of(ty: TypeName, other: Option<TypeName>) -> bool
    ensures { result ≡ is_attribute_of ty other }
{
    match other {
        None => false,
        Some(other) => same_type(ty, other),
    }
}

impl PropertyDraft {
    /// No property; takes no memory.
    pub fn none(alloc: Global) -> PropertyDraft
        ensures { result ≡ no_property }
    {
        PropertyDraft {
            name: Text::new(alloc),
            edit: ListEdit::Explicit,
            ty: None,
            custom: false,
            uniform: false,
            default: None,
            samples: Samples::new(alloc),
            paths: ListOp::new(alloc),
            meta: Meta::new(alloc),
            marks: PropertyMarks::none(),
        }
    }

    /// Whether a property is in hand.
    pub fn is_in_hand(&self) -> bool
        ensures { result ≡ is_in_hand self.now }
    {
        !self.name.is_empty()
    }

    /// The first statement on a property.
    fn first(alloc: Global, heading: Heading, name: Text) -> PropertyDraft
        ensures { result ≡ new_property heading name }
    {
        PropertyDraft {
            name,
            edit: heading.edit,
            ty: heading.ty,
            custom: heading.custom,
            uniform: heading.uniform,
            ..PropertyDraft::none(alloc)
        }
    }

    /// A further statement on a property.
    fn further(
        alloc: Global,
        heading: Heading,
        marks: PropertyMarks,
        property: Property,
    ) -> Result<PropertyDraft, PartFault>
        ensures answer { Gives result (joined_to heading marks property) }
        ensures sure { AsksNoMemory result }
    {
        match property {
            Property::Attr {
                name,
                ty,
                custom,
                uniform,
                default,
                samples,
                connections,
                meta,
            } => {
                if !is_attribute_of(ty, heading.ty) {
                    drop((name, default, samples, connections, meta));
                    return Err(PartFault::Refused(RefusalKind::DuplicateSpec));
                }
                Ok(PropertyDraft {
                    name,
                    edit: heading.edit,
                    ty: Some(ty),
                    custom: custom || heading.custom,
                    uniform: uniform || heading.uniform,
                    default,
                    samples,
                    paths: connections,
                    meta,
                    marks,
                })
            }
            Property::Rel {
                name,
                custom,
                targets,
                meta,
            } => {
                if heading.ty.is_some() {
                    drop((name, targets, meta));
                    return Err(PartFault::Refused(RefusalKind::DuplicateSpec));
                }
                Ok(PropertyDraft {
                    name,
                    edit: heading.edit,
                    ty: None,
                    custom: custom || heading.custom,
                    uniform: false,
                    default: None,
                    samples: Samples::new(alloc),
                    paths: targets,
                    meta,
                    marks,
                })
            }
        }
    }

    /// A statement on the property of a name, of which nothing is said so far, or this. A property that was given with another type, or
    /// as one of the other kind, is refused. Takes no memory.
    pub fn join(
        alloc: Global,
        heading: Heading,
        name: Text,
        marks: PropertyMarks,
        property: Option<Property>,
    ) -> Result<PropertyDraft, PartFault>
        ensures answer { Gives result (joined heading name marks property) }
        ensures sure { AsksNoMemory result }
    {
        match property {
            None => Ok(PropertyDraft::first(alloc, heading, name)),
            Some(property) => PropertyDraft::further(alloc, heading, marks, property),
        }
    }

    /// The property that the statements make; takes no memory.
    pub fn into_property(self) -> Property
        ensures { result ≡ property_of self }
    {
        let PropertyDraft {
            name,
            ty,
            custom,
            uniform,
            default,
            samples,
            paths,
            meta,
            ..
        } = self;
        match ty {
            Some(ty) => Property::Attr {
                name,
                ty,
                custom,
                uniform,
                default,
                samples,
                connections: paths,
                meta,
            },
            None => {
                drop((default, samples));
                Property::Rel {
                    name,
                    custom,
                    targets: paths,
                    meta,
                }
            }
        }
    }

    /// Takes the `=` of a default, which may stand once. After a refusal nothing is changed.
    pub fn start_default(&mut self) -> Result<(), PartFault>
        ensures answer { Does result self.new (default_act self.old) }
        ensures kept { OnErr result (self.new ≡ self.old) }
        ensures sure { AsksNoMemory result }
    {
        if self.default.is_some() {
            return Err(PartFault::Refused(RefusalKind::DuplicateSpec));
        }
        Ok(())
    }

    /// Sets the default.
    pub fn give_default(&mut self, value: Value)
        ensures { self.new ≡ with_default value self.old }
    {
        drop(mem::replace(&mut self.default, Some(value)));
    }

    /// Takes the word `timeSamples`, which may stand once. After a refusal nothing is changed.
    pub fn start_samples(&mut self) -> Result<(), PartFault>
        ensures answer { Does result self.new (samples_act self.old) }
        ensures kept { OnErr result (self.new ≡ self.old) }
        ensures sure { AsksNoMemory result }
    {
        if self.marks.sampled {
            return Err(PartFault::Refused(RefusalKind::DuplicateSpec));
        }
        self.marks.sampled = true;
        Ok(())
    }

    /// Sets the sample at a time; a later one of the same time replaces the earlier.
    pub fn give_sample(&mut self, time: TimeCode, value: Value) -> Result<(), AllocError>
        ensures { OnOk result (self.new ≡ with_sample time value self.old) }
    {
        drop(self.samples.insert(time, value)?);
        Ok(())
    }

    /// Opens the list of targets or connections of the statement's edit word. After a refusal nothing is changed.
    pub fn start_list(&mut self) -> Result<(), PartFault>
        ensures answer { Does result self.new (list_act self.old) }
        ensures kept { OnErr result (self.new ≡ self.old) }
        ensures sure { AsksNoMemory result }
    {
        match self.marks.lists.give(self.edit) {
            Ok(()) => {
                open_list(&mut self.paths, self.edit);
                Ok(())
            }
            Err(fault) => Err(fault),
        }
    }

    fn give_path(&mut self, path: Option<Path>) -> Result<(), PartFault>
        ensures { Does result self.new (with_path path self.old) }
    {
        let Some(path) = path else {
            return Err(PartFault::Refused(RefusalKind::Syntax));
        };
        push_item(&mut self.paths, self.edit, path)?;
        Ok(())
    }

    /// Adds the path of a path token to the list that is open, without its selections, in a statement whose owner has this plain path.
    pub fn push_path(&mut self, alloc: Global, base: &Path, token: &str) -> Result<(), PartFault>
        ensures { Does result self.new (path_act base.now token.now self.old) }
    {
        let path = target_from(alloc, base, path_text(token))?;
        self.give_path(path)
    }

    /// Ends the list that is open: repeats after the first are dropped.
    pub fn end_list(&mut self, alloc: Global) -> Result<(), AllocError>
        ensures { OnOk result (self.new ≡ with_list_closed self.old) }
    {
        close_paths(alloc, &mut self.paths, self.edit)
    }

    /// Puts a string that stands alone among the metadata.
    pub fn put_comment(&mut self, alloc: Global, token: &str) -> Result<(), PartFault>
        ensures { Does result self.new (meta_comment_act token.now self.old) }
    {
        if let Err(fault) = put_comment(alloc, &mut self.meta, token) {
            return Err(fault);
        }
        Ok(())
    }

    /// What a key of metadata expects, before its value is read.
    pub fn judge_key(&self, key: &Text) -> Result<KeyRule, PartFault>
        ensures answer { Gives result (meta_key_act key.now self.now) }
        ensures sure { AsksNoMemory result }
    {
        judge_key(&self.meta, key)
    }

    /// Puts the whole value of a key of metadata.
    pub fn put_value(&mut self, alloc: Global, key: Text, value: Value) -> Result<(), PartFault>
        ensures { Does result self.new (meta_act key value self.old) }
    {
        if let Err(fault) = put_value(alloc, &mut self.meta, key, value) {
            return Err(fault);
        }
        Ok(())
    }
}
