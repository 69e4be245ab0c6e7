//! The lists of an owner's fields, item by item.
ghost use Rattle.std.specs.Prelude.{◌≡◌, List, ℕ, OnOk};
ghost use Rattle.list_ops.specs.declared.op.ListOp.{ListOp};
ghost use Rattle.sdf_paths.specs.declared.element.Element.{Element};
ghost use Rattle.spec_parts.specs.declared.items.RefItem.{RefItem};
ghost use Rattle.usda_lists.specs.Acts.{AsksNoMemory, Does};
ghost use Rattle.usda_lists.specs.Lists.{push_item};
ghost use Rattle.usda_fields.specs.Fields.{paths_at, with_paths, items_at, with_items, texts_at, with_texts, given_at, with_given_at, open_field, field_act, path_act, text_act, asset_act, lone_path_act, item_path_act, item_number_act, close_field};

use crate::field::{ListField, PathField, ReferenceField, TextField};
use crate::names::text_of;
use crate::owner::{OwnerDraft, OwnerMarks};
use list_ops::ListOp;
use plain_data::Text;
use sdf_paths::Path;
use sdf_values::RefusalKind;
use spec_parts::RefItem;
use std::alloc::{AllocError, Global};
use std::mem;
use usda_lexer::path_text;
use usda_lists::{
    GivenLists, ListEdit, OffsetKey, asset_item, close_items, close_paths, close_texts, open_list,
    path_from, path_item, push_item, set_last_offset, set_last_path,
};
use usda_values::PartFault;

impl OwnerMarks {
    fn given_at(&self, field: ListField) -> GivenLists
        ensures { result ≡ given_at field self.now }
    {
        match field {
            ListField::Paths(PathField::Inherits) => self.inherits,
            ListField::Paths(PathField::Specializes) => self.specializes,
            ListField::References(ReferenceField::References) => self.references,
            ListField::References(ReferenceField::Payload) => self.payloads,
            ListField::Texts(TextField::VariantSets) => self.variant_sets,
            ListField::Texts(TextField::ApiSchemas) => self.api_schemas,
            ListField::Texts(TextField::ClipSets) => self.clip_sets,
        }
    }

    fn put_given(&mut self, field: ListField, given: GivenLists)
        ensures { self.new ≡ with_given_at field given self.old }
    {
        match field {
            ListField::Paths(PathField::Inherits) => self.inherits = given,
            ListField::Paths(PathField::Specializes) => self.specializes = given,
            ListField::References(ReferenceField::References) => self.references = given,
            ListField::References(ReferenceField::Payload) => self.payloads = given,
            ListField::Texts(TextField::VariantSets) => self.variant_sets = given,
            ListField::Texts(TextField::ApiSchemas) => self.api_schemas = given,
            ListField::Texts(TextField::ClipSets) => self.clip_sets = given,
        }
    }
}

impl OwnerDraft {
    fn take_paths(&mut self, alloc: Global, field: PathField) -> ListOp<Path>
        ensures list { result ≡ paths_at field self.old }
        ensures left { (op : ListOp (List Element)) → with_paths field op self.new ≡ with_paths field op self.old }
        ensures base { self.new.base ≡ self.old.base }
    {
        let none = ListOp::new(alloc);
        match field {
            PathField::Inherits => mem::replace(&mut self.spec.arcs.inherits, none),
            PathField::Specializes => mem::replace(&mut self.spec.arcs.specializes, none),
        }
    }

    fn put_paths(&mut self, field: PathField, op: ListOp<Path>)
        ensures { self.new ≡ with_paths field op self.old }
    {
        match field {
            PathField::Inherits => drop(mem::replace(&mut self.spec.arcs.inherits, op)),
            PathField::Specializes => drop(mem::replace(&mut self.spec.arcs.specializes, op)),
        }
    }

    fn take_items(&mut self, alloc: Global, field: ReferenceField) -> ListOp<RefItem>
        ensures list { result ≡ items_at field self.old }
        ensures left { (op : ListOp RefItem) → with_items field op self.new ≡ with_items field op self.old }
        ensures base { self.new.base ≡ self.old.base }
    {
        let none = ListOp::new(alloc);
        match field {
            ReferenceField::References => mem::replace(&mut self.spec.arcs.references, none),
            ReferenceField::Payload => mem::replace(&mut self.spec.arcs.payloads, none),
        }
    }

    fn put_items(&mut self, field: ReferenceField, op: ListOp<RefItem>)
        ensures { self.new ≡ with_items field op self.old }
    {
        match field {
            ReferenceField::References => drop(mem::replace(&mut self.spec.arcs.references, op)),
            ReferenceField::Payload => drop(mem::replace(&mut self.spec.arcs.payloads, op)),
        }
    }

    fn take_texts(&mut self, alloc: Global, field: TextField) -> ListOp<Text>
        ensures list { result ≡ texts_at field self.old }
        ensures left { (op : ListOp (List ℕ)) → with_texts field op self.new ≡ with_texts field op self.old }
        ensures base { self.new.base ≡ self.old.base }
    {
        let none = ListOp::new(alloc);
        match field {
            TextField::VariantSets => mem::replace(&mut self.spec.arcs.variant_sets, none),
            TextField::ApiSchemas => mem::replace(&mut self.spec.body.api_schemas, none),
            TextField::ClipSets => mem::replace(&mut self.spec.body.clip_sets, none),
        }
    }

    fn put_texts(&mut self, field: TextField, op: ListOp<Text>)
        ensures { self.new ≡ with_texts field op self.old }
    {
        match field {
            TextField::VariantSets => drop(mem::replace(&mut self.spec.arcs.variant_sets, op)),
            TextField::ApiSchemas => drop(mem::replace(&mut self.spec.body.api_schemas, op)),
            TextField::ClipSets => drop(mem::replace(&mut self.spec.body.clip_sets, op)),
        }
    }

    fn open_paths(&mut self, alloc: Global, field: PathField, edit: ListEdit)
        ensures { self.new ≡ open_field (ListField.Paths field) edit self.old }
    {
        let mut op = self.take_paths(alloc, field);
        open_list(&mut op, edit);
        self.put_paths(field, op);
    }

    fn open_items(&mut self, alloc: Global, field: ReferenceField, edit: ListEdit)
        ensures { self.new ≡ open_field (ListField.References field) edit self.old }
    {
        let mut op = self.take_items(alloc, field);
        open_list(&mut op, edit);
        self.put_items(field, op);
    }

    fn open_texts(&mut self, alloc: Global, field: TextField, edit: ListEdit)
        ensures { self.new ≡ open_field (ListField.Texts field) edit self.old }
    {
        let mut op = self.take_texts(alloc, field);
        open_list(&mut op, edit);
        self.put_texts(field, op);
    }

    fn open_field(&mut self, alloc: Global, field: ListField, edit: ListEdit)
        ensures { self.new ≡ open_field field edit self.old }
    {
        match field {
            ListField::Paths(field) => self.open_paths(alloc, field, edit),
            ListField::References(field) => self.open_items(alloc, field, edit),
            ListField::Texts(field) => self.open_texts(alloc, field, edit),
        }
    }

    /// Takes the word of a field, behind its edit word; its list has no items yet. `Syntax` where an explicit list and edits meet,
    /// `DuplicateSpec` where this list of the field was given before.
    pub fn give_field(
        &mut self,
        alloc: Global,
        field: ListField,
        edit: ListEdit,
    ) -> Result<(), PartFault>
        ensures answer { Does result self.new (field_act field edit self.old) }
        ensures sure { AsksNoMemory result }
    {
        let mut given = self.given.given_at(field);
        if let Err(fault) = given.give(edit) {
            return Err(fault);
        }
        self.given.put_given(field, given);
        self.open_field(alloc, field, edit);
        Ok(())
    }

    fn push_path_item(
        &mut self,
        alloc: Global,
        field: PathField,
        edit: ListEdit,
        path: Path,
    ) -> Result<(), AllocError>
        ensures { OnOk result (self.new ≡ with_paths field (push_item edit path (paths_at field self.old)) self.old) }
    {
        let mut op = self.take_paths(alloc, field);
        match push_item(&mut op, edit, path) {
            Ok(()) => {
                self.put_paths(field, op);
                Ok(())
            }
            Err(error) => {
                drop(op);
                Err(error)
            }
        }
    }

    /// Adds a path token to the list of a field; its selections are kept. `Syntax` where it is no path.
    pub fn push_path(
        &mut self,
        alloc: Global,
        field: PathField,
        edit: ListEdit,
        token: &str,
    ) -> Result<(), PartFault>
        ensures { Does result self.new (path_act field edit token.now self.old) }
    {
        match path_from(alloc, &self.base, path_text(token))? {
            None => Err(PartFault::Refused(RefusalKind::Syntax)),
            Some(path) => {
                self.push_path_item(alloc, field, edit, path)?;
                Ok(())
            }
        }
    }

    fn push_text_item(
        &mut self,
        alloc: Global,
        field: TextField,
        edit: ListEdit,
        text: Text,
    ) -> Result<(), AllocError>
        ensures { OnOk result (self.new ≡ with_texts field (push_item edit text (texts_at field self.old)) self.old) }
    {
        let mut op = self.take_texts(alloc, field);
        match push_item(&mut op, edit, text) {
            Ok(()) => {
                self.put_texts(field, op);
                Ok(())
            }
            Err(error) => {
                drop(op);
                Err(error)
            }
        }
    }

    /// Adds a string token to the list of a field. `NotUtf8` where its escapes make bytes that are not UTF-8.
    pub fn push_text(
        &mut self,
        alloc: Global,
        field: TextField,
        edit: ListEdit,
        token: &str,
    ) -> Result<(), PartFault>
        ensures { Does result self.new (text_act field edit token.now self.old) }
    {
        match text_of(alloc, token) {
            Err(fault) => Err(fault),
            Ok(text) => {
                self.push_text_item(alloc, field, edit, text)?;
                Ok(())
            }
        }
    }

    fn push_reference(
        &mut self,
        alloc: Global,
        field: ReferenceField,
        edit: ListEdit,
        item: RefItem,
    ) -> Result<(), AllocError>
        ensures { OnOk result (self.new ≡ with_items field (push_item edit item (items_at field self.old)) self.old) }
    {
        let mut op = self.take_items(alloc, field);
        match push_item(&mut op, edit, item) {
            Ok(()) => {
                self.put_items(field, op);
                Ok(())
            }
            Err(error) => {
                drop(op);
                Err(error)
            }
        }
    }

    /// Adds an asset token to the list of a field; the empty asset is none.
    pub fn push_asset(
        &mut self,
        alloc: Global,
        field: ReferenceField,
        edit: ListEdit,
        token: &str,
    ) -> Result<(), AllocError>
        ensures { OnOk result (self.new ≡ asset_act field edit token.now self.old) }
    {
        let item = asset_item(alloc, token)?;
        self.push_reference(alloc, field, edit, item)
    }

    /// Adds a path token that stands alone to the list of a field; `<>` is no path. `Syntax` where it is none.
    pub fn push_lone_path(
        &mut self,
        alloc: Global,
        field: ReferenceField,
        edit: ListEdit,
        token: &str,
    ) -> Result<(), PartFault>
        ensures { Does result self.new (lone_path_act field edit token.now self.old) }
    {
        match path_item(alloc, &self.base, token) {
            Err(fault) => Err(fault),
            Ok(item) => {
                self.push_reference(alloc, field, edit, item)?;
                Ok(())
            }
        }
    }

    /// Gives the last item of a list the path token behind its asset; `<>` is no path. `Syntax` where it is none.
    pub fn set_item_path(
        &mut self,
        alloc: Global,
        field: ReferenceField,
        edit: ListEdit,
        token: &str,
    ) -> Result<(), PartFault>
        ensures { Does result self.new (item_path_act field edit token.now self.old) }
    {
        let mut op = self.take_items(alloc, field);
        match set_last_path(alloc, &mut op, edit, &self.base, token) {
            Ok(()) => {
                self.put_items(field, op);
                Ok(())
            }
            Err(fault) => {
                drop(op);
                Err(fault)
            }
        }
    }

    /// Gives the last item of a list an offset or a scale, by its number token. `OffsetRange` where it is out of its bounds.
    pub fn set_item_offset(
        &mut self,
        alloc: Global,
        field: ReferenceField,
        edit: ListEdit,
        key: OffsetKey,
        token: &str,
    ) -> Result<(), PartFault>
        ensures { Does result self.new (item_number_act field edit key token.now self.old) }
    {
        let mut op = self.take_items(alloc, field);
        match set_last_offset(&mut op, edit, key, token) {
            Ok(()) => {
                self.put_items(field, op);
                Ok(())
            }
            Err(fault) => {
                drop(op);
                Err(fault)
            }
        }
    }

    fn close_paths(
        &mut self,
        alloc: Global,
        field: PathField,
        edit: ListEdit,
    ) -> Result<(), AllocError>
        ensures { OnOk result (self.new ≡ close_field (ListField.Paths field) edit self.old) }
    {
        let mut op = self.take_paths(alloc, field);
        match close_paths(alloc, &mut op, edit) {
            Ok(()) => {
                self.put_paths(field, op);
                Ok(())
            }
            Err(error) => {
                drop(op);
                Err(error)
            }
        }
    }

    fn close_references(
        &mut self,
        alloc: Global,
        field: ReferenceField,
        edit: ListEdit,
    ) -> Result<(), AllocError>
        ensures { OnOk result (self.new ≡ close_field (ListField.References field) edit self.old) }
    {
        let mut op = self.take_items(alloc, field);
        match close_items(alloc, &mut op, edit) {
            Ok(()) => {
                self.put_items(field, op);
                Ok(())
            }
            Err(error) => {
                drop(op);
                Err(error)
            }
        }
    }

    fn close_texts(
        &mut self,
        alloc: Global,
        field: TextField,
        edit: ListEdit,
    ) -> Result<(), AllocError>
        ensures { OnOk result (self.new ≡ close_field (ListField.Texts field) edit self.old) }
    {
        let mut op = self.take_texts(alloc, field);
        match close_texts(alloc, &mut op, edit) {
            Ok(()) => {
                self.put_texts(field, op);
                Ok(())
            }
            Err(error) => {
                drop(op);
                Err(error)
            }
        }
    }

    /// Ends the list of a field: repeats after the first are dropped.
    pub fn close_field(
        &mut self,
        alloc: Global,
        field: ListField,
        edit: ListEdit,
    ) -> Result<(), AllocError>
        ensures { OnOk result (self.new ≡ close_field field edit self.old) }
    {
        match field {
            ListField::Paths(field) => self.close_paths(alloc, field, edit),
            ListField::References(field) => self.close_references(alloc, field, edit),
            ListField::Texts(field) => self.close_texts(alloc, field, edit),
        }
    }
}
