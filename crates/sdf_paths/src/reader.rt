//! Reads a path character by character.
ghost use Rattle.std.specs.Prelude.{◌≡◌, IfOk, IfErr};
ghost use Rattle.sdf_paths.specs.Reader.{step, finish, start, begins, step_nothing, step_name, step_set, step_after_set, step_variant, step_selected, step_property, RunsTo, StopsAsTold};

use crate::element::Element;
use crate::fault::PathFault;
use plain_data::{Items, Text};
use std::alloc::{AllocError, Global};
use usd_names::{goes_on, is_number_word, is_start, is_variant_character};

/// The most names of prims in a path.
pub const MAX_NAMES: usize = 64;

/// The most bytes in the text of a path.
pub const MAX_BYTES: usize = 4096;

/// The part of a path that is being read.
#[derive(Drop)]
pub enum Open {
    /// No character has been read.
    Nothing,
    /// After `/`, or inside the name of a prim.
    Name {
        name: Text,
        begun: bool,
    },
    /// After `{`, or inside the name of a variant set.
    Set {
        set: Text,
        begun: bool,
    },
    /// After the `=` of a selection.
    AfterSet {
        set: Text,
    },
    /// Inside the name of a variant. `begun` says that more than a `.` has been read.
    Variant {
        set: Text,
        variant: Text,
        begun: bool,
    },
    /// After the `}` of a selection.
    Selected,
    /// After `.` or `:`, or inside the name of a property.
    PropertyName {
        name: Text,
        begun: bool,
    },
}

/// What has been read of a path: whole elements, the part that is open, and how many names of prims
/// there are in all.
#[derive(Drop)]
pub struct Reader {
    /// The elements that are whole.
    pub elements: Items<Element>,
    /// How many names of prims there are, with one that is open.
    pub names: usize,
    /// The part that is open.
    pub open_part: Open,
}

impl Reader {
    /// No character was read.
    pub fn new(alloc: Global) -> Reader
        ensures { result ≡ start }
    {
        Reader {
            elements: Items::new(alloc),
            names: 0,
            open_part: Open::Nothing,
        }
    }

    /// The elements of the path, where the text ends here. `None` where it may not.
    #[tactic(auto, unfolding(crate::specs::Reader::finish))]
    pub fn finish(self) -> Result<Option<Items<Element>>, AllocError>
        ensures { IfOk result (λ path. path ≡ finish self) }
    {
        let Reader {
            mut elements,
            names,
            open_part,
        } = self;
        match open_part {
            Open::Name { name, begun: true } => elements.push(Element::Prim(name))?,
            Open::Name { name, begun: false } => {
                if !elements.is_empty() {
                    return Ok(None);
                }
            }
            Open::Selected => {}
            Open::PropertyName { name, begun: true } => {
                if is_number_word(name.as_str()) {
                    return Ok(None);
                }
                elements.push(Element::Property(name))?;
            }
            _ => return Ok(None),
        }
        Ok(Some(elements))
    }

    /// Reads one more character. `None` where no path goes on with it.
    #[tactic(auto, unfolding(crate::specs::Reader::step))]
    pub fn step(self, c: char) -> Result<Option<Reader>, AllocError>
        ensures { IfOk result (λ next. next ≡ step self c) }
    {
        let Reader {
            elements,
            names,
            open_part,
        } = self;
        match open_part {
            Open::Nothing => Ok(step_nothing(elements, names, c)),
            Open::Name { name, begun } => step_name(elements, names, name, begun, c),
            Open::Set { set, begun } => step_set(elements, names, set, begun, c),
            Open::AfterSet { set } => step_after_set(elements, names, set, c),
            Open::Variant {
                set,
                variant,
                begun,
            } => step_variant(elements, names, set, variant, begun, c),
            Open::Selected => step_selected(elements, names, c),
            Open::PropertyName { name, begun } => step_property(elements, names, name, begun, c),
        }
    }
}

/// The next element, after a name or a selection.
fn begins(elements: Items<Element>, names: usize, c: char) -> Option<Reader>
    ensures { result ≡ begins elements names c }
{
    let alloc = elements.allocator();
    if c == '/' {
        if names >= MAX_NAMES {
            return None;
        }
        let open_part = Open::Name {
            name: Text::new(alloc),
            begun: false,
        };
        return Some(Reader {
            elements,
            names: names + 1,
            open_part,
        });
    }
    if c == '{' {
        let open_part = Open::Set {
            set: Text::new(alloc),
            begun: false,
        };
        return Some(Reader {
            elements,
            names,
            open_part,
        });
    }
    if c == '.' {
        let open_part = Open::PropertyName {
            name: Text::new(alloc),
            begun: false,
        };
        return Some(Reader {
            elements,
            names,
            open_part,
        });
    }
    None
}

fn step_nothing(elements: Items<Element>, names: usize, c: char) -> Option<Reader>
    ensures { result ≡ step_nothing elements c }
{
    if c != '/' {
        return None;
    }
    let open_part = Open::Name {
        name: Text::new(elements.allocator()),
        begun: false,
    };
    Some(Reader {
        elements,
        names: 1,
        open_part,
    })
}

fn step_name(
    mut elements: Items<Element>,
    names: usize,
    mut name: Text,
    begun: bool,
    c: char,
) -> Result<Option<Reader>, AllocError>
    ensures { IfOk result (λ next. next ≡ step_name elements names name begun c) }
{
    if goes_on(begun, c) {
        name.push(c)?;
        let open_part = Open::Name { name, begun: true };
        return Ok(Some(Reader {
            elements,
            names,
            open_part,
        }));
    }
    if !begun {
        return Ok(None);
    }
    elements.push(Element::Prim(name))?;
    Ok(begins(elements, names, c))
}

fn step_set(
    elements: Items<Element>,
    names: usize,
    mut set: Text,
    begun: bool,
    c: char,
) -> Result<Option<Reader>, AllocError>
    ensures { IfOk result (λ next. next ≡ step_set elements names set begun c) }
{
    let open_part = if goes_on(begun, c) {
        set.push(c)?;
        Open::Set { set, begun: true }
    } else if begun && c == '=' {
        Open::AfterSet { set }
    } else {
        return Ok(None);
    };
    Ok(Some(Reader {
        elements,
        names,
        open_part,
    }))
}

fn step_after_set(
    elements: Items<Element>,
    names: usize,
    set: Text,
    c: char,
) -> Result<Option<Reader>, AllocError>
    ensures { IfOk result (λ next. next ≡ step_after_set elements names set c) }
{
    let begun = is_variant_character(c);
    if !begun && c != '.' {
        return Ok(None);
    }
    let mut variant = Text::new(elements.allocator());
    variant.push(c)?;
    let open_part = Open::Variant {
        set,
        variant,
        begun,
    };
    Ok(Some(Reader {
        elements,
        names,
        open_part,
    }))
}

fn step_variant(
    mut elements: Items<Element>,
    names: usize,
    set: Text,
    mut variant: Text,
    begun: bool,
    c: char,
) -> Result<Option<Reader>, AllocError>
    ensures { IfOk result (λ next. next ≡ step_variant elements names set variant begun c) }
{
    let open_part = if is_variant_character(c) {
        variant.push(c)?;
        Open::Variant {
            set,
            variant,
            begun: true,
        }
    } else if begun && c == '}' {
        elements.push(Element::Selection { set, variant })?;
        Open::Selected
    } else {
        return Ok(None);
    };
    Ok(Some(Reader {
        elements,
        names,
        open_part,
    }))
}

fn step_selected(
    elements: Items<Element>,
    names: usize,
    c: char,
) -> Result<Option<Reader>, AllocError>
    ensures { IfOk result (λ next. next ≡ step_selected elements names c) }
{
    if !is_start(c) {
        return Ok(begins(elements, names, c));
    }
    if names >= MAX_NAMES {
        return Ok(None);
    }
    let mut name = Text::new(elements.allocator());
    name.push(c)?;
    Ok(Some(Reader {
        elements,
        names: names + 1,
        open_part: Open::Name { name, begun: true },
    }))
}

fn step_property(
    elements: Items<Element>,
    names: usize,
    mut name: Text,
    begun: bool,
    c: char,
) -> Result<Option<Reader>, AllocError>
    ensures { IfOk result (λ next. next ≡ step_property elements names name begun c) }
{
    let continues = goes_on(begun, c);
    if !continues && !(begun && c == ':') {
        return Ok(None);
    }
    name.push(c)?;
    Ok(Some(Reader {
        elements,
        names,
        open_part: Open::PropertyName {
            name,
            begun: continues,
        },
    }))
}

/// Reads the elements of a path.
pub fn read(alloc: Global, text: &str) -> Result<Items<Element>, PathFault>
    ensures ok { IfOk result (λ path. RunsTo text.now path) }
    ensures bad { IfErr result (λ e. StopsAsTold text.now e) }
{
    let mut reader = Reader::new(alloc);
    let mut at = 0;
    for c in text.chars() {
        if at >= MAX_BYTES {
            return Err(PathFault::Bad { at: MAX_BYTES });
        }
        match reader.step(c)? {
            Some(next) => reader = next,
            None => return Err(PathFault::Bad { at }),
        }
        at += c.len_utf8();
    }
    if at > MAX_BYTES {
        return Err(PathFault::Bad { at: MAX_BYTES });
    }
    match reader.finish()? {
        Some(elements) => Ok(elements),
        None => Err(PathFault::Bad { at }),
    }
}
