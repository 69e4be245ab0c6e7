//! Answers and replies as bytes: each question with each kind of answer.
use asset_names::AssetId;
use change_core::EditReply;
use edit_batches::EditFault;
use plain_data::{Items, Text};
use prim_view::{PrimFault, PrimView, PropertyView, Site, StackName};
use sdf_paths::Path;
use sdf_values::{
    Decimal, DictItem, DictType, ElementType, LayerOffset, RefusalKind, TimeCode, TypeName, Value,
};
use spec_parts::{Refusal, Specifier};
use spec_properties::{Meta, Samples};
use stage_entries::StageEntry;
use stage_publish::Edition;
use stage_questions::{Question, push_answer, push_edit_reply, push_publish_reply};
use std::alloc::Global;
use std::mem;
use std::test::Fail;

const INT: TypeName = TypeName {
    element: ElementType::Int,
    array: false,
};

/// What of a property differs in the tests.
#[derive(Drop)]
struct Said {
    default: Option<Value>,
    samples: Samples,
    paths: Option<Items<Path>>,
}

fn attribute(alloc: Global, name: Text, said: Said) -> PropertyView {
    let Said {
        default,
        samples,
        paths,
    } = said;
    PropertyView::Attr {
        name,
        ty: INT,
        custom: false,
        uniform: false,
        default,
        samples,
        connections: paths,
        meta: Meta::new(alloc),
    }
}

fn relationship(alloc: Global, name: Text, targets: Option<Items<Path>>) -> PropertyView {
    PropertyView::Rel {
        name,
        custom: false,
        targets,
        meta: Meta::new(alloc),
    }
}

fn at(text: &str) -> Result<TimeCode, Fail> {
    Ok(TimeCode::of(Decimal::parse(text)?)?)
}

/// What was made, where all of it was done.
fn whole<T: Drop>(made: T, done: Result<(), Fail>) -> Result<T, Fail> {
    match done {
        Ok(()) => Ok(made),
        Err(fail) => {
            drop(made);
            Err(fail)
        }
    }
}

fn push_paths(alloc: Global, paths: &mut Items<Path>, texts: &[&str]) -> Result<(), Fail> {
    for text in texts {
        paths.push(Path::parse(alloc, text)?)?;
    }
    Ok(())
}

fn paths(alloc: Global, texts: &[&str]) -> Result<Items<Path>, Fail> {
    let mut paths = Items::new(alloc);
    let done = push_paths(alloc, &mut paths, texts);
    whole(paths, done)
}

fn push_names(alloc: Global, names: &mut Items<Text>, texts: &[&str]) -> Result<(), Fail> {
    for text in texts {
        names.push(Text::of(alloc, text)?)?;
    }
    Ok(())
}

fn names(alloc: Global, texts: &[&str]) -> Result<Items<Text>, Fail> {
    let mut names = Items::new(alloc);
    let done = push_names(alloc, &mut names, texts);
    whole(names, done)
}

/// A prim with these children of which no more is said.
fn prim(alloc: Global, children: Items<Text>) -> PrimView {
    PrimView {
        specifier: Specifier::Def,
        type_name: None,
        meta: Meta::new(alloc),
        api_schemas: None,
        clip_sets: None,
        properties: Items::new(alloc),
        children,
        choices: Items::new(alloc),
        sites: Items::new(alloc),
        faults: Items::new(alloc),
        since: 0,
    }
}

fn site(alloc: Global, stack: StackName, path: &str, has_spec: bool) -> Result<Site, Fail> {
    let path = Path::parse(alloc, path)?;
    Ok(Site {
        stack,
        path,
        maps: Items::new(alloc),
        offset: LayerOffset {
            offset: 0,
            scale: 1,
        },
        by_class: false,
        has_spec,
    })
}

fn layer(alloc: Global, name: &str) -> Result<StackName, Fail> {
    Ok(StackName::Asset(AssetId::of_word(alloc, name)?))
}

fn put_sample(samples: &mut Samples, time: TimeCode, value: Value) -> Result<(), Fail> {
    let _before = samples.insert(time, value)?;
    Ok(())
}

fn put_samples(samples: &mut Samples) -> Result<(), Fail> {
    put_sample(samples, at("2.5")?, Value::Block)?;
    put_sample(samples, at("-1")?, Value::Whole(2))
}

/// Two samples, of which the later one is a block.
fn two_samples(alloc: Global) -> Result<Samples, Fail> {
    let mut samples = Samples::new(alloc);
    let done = put_samples(&mut samples);
    whole(samples, done)
}

/// A dictionary of one entry.
fn dictionary(alloc: Global, key: &str, ty: DictType, value: Value) -> Result<Value, Fail> {
    let key = Text::of(alloc, key)?;
    let mut items = Items::new(alloc);
    items.push(DictItem { key, ty, value })?;
    Ok(Value::Dict(items))
}

/// A dictionary in a dictionary.
fn nested(alloc: Global) -> Result<Value, Fail> {
    let inner = dictionary(alloc, "k", DictType::Plain(INT), Value::Whole(1))?;
    dictionary(alloc, "d", DictType::Dictionary, inner)
}

/// An attribute of which no more than a default is said.
fn with_default(alloc: Global, name: &str, default: Option<Value>) -> Result<PropertyView, Fail> {
    let name = Text::of(alloc, name)?;
    let said = Said {
        default,
        samples: Samples::new(alloc),
        paths: None,
    };
    Ok(attribute(alloc, name, said))
}

/// An attribute with a default, samples and a connection.
fn full_attribute(alloc: Global) -> Result<PropertyView, Fail> {
    let name = Text::of(alloc, "x")?;
    let connections = paths(alloc, &["/B.y"])?;
    let samples = two_samples(alloc)?;
    let said = Said {
        default: Some(Value::Whole(5)),
        samples,
        paths: Some(connections),
    };
    Ok(attribute(alloc, name, said))
}

/// A relationship with these targets.
fn targeting(alloc: Global, name: &str, targets: &[&str]) -> Result<PropertyView, Fail> {
    let name = Text::of(alloc, name)?;
    let targets = paths(alloc, targets)?;
    Ok(relationship(alloc, name, Some(targets)))
}

fn push_attributes(alloc: Global, properties: &mut Items<PropertyView>) -> Result<(), Fail> {
    properties.push(full_attribute(alloc)?)?;
    properties.push(with_default(alloc, "b:c", Some(Value::Block))?)?;
    let dictionary = Some(nested(alloc)?);
    properties.push(with_default(alloc, "d", dictionary)?)?;
    properties.push(with_default(alloc, "n", None)?)?;
    Ok(())
}

fn push_relationships(alloc: Global, properties: &mut Items<PropertyView>) -> Result<(), Fail> {
    properties.push(targeting(alloc, "r", &["/B", "/C/D.p"])?)?;
    properties.push(targeting(alloc, "e", &[])?)?;
    properties.push(relationship(alloc, Text::of(alloc, "q")?, None))?;
    Ok(())
}

fn push_sites(alloc: Global, sites: &mut Items<Site>) -> Result<(), Fail> {
    sites.push(site(alloc, StackName::Root, "/A", true)?)?;
    let named = layer(alloc, "m.usda")?;
    sites.push(site(alloc, named, "/M", false)?)?;
    let named = layer(alloc, "n@.usda")?;
    sites.push(site(alloc, named, "/N{s=v}O", true)?)?;
    Ok(())
}

fn push_faults(alloc: Global, faults: &mut Items<PrimFault>) -> Result<(), Fail> {
    faults.push(PrimFault::ChildTooLong(Text::of(alloc, "k\"")?))?;
    faults.push(PrimFault::Overgrown)?;
    Ok(())
}

fn push_all(alloc: Global, prim: &mut PrimView) -> Result<(), Fail> {
    push_attributes(alloc, &mut prim.properties)?;
    push_relationships(alloc, &mut prim.properties)?;
    push_sites(alloc, &mut prim.sites)?;
    push_faults(alloc, &mut prim.faults)
}

/// The prim `/A`.
fn busy_prim(alloc: Global) -> Result<PrimView, Fail> {
    let mut all = prim(alloc, Items::new(alloc));
    let done = push_all(alloc, &mut all);
    whole(all, done)
}

/// The prims of a stage, with their paths.
type Placed = Items<(Path, StageEntry)>;

/// Appends a prim at a path.
fn push_prim(alloc: Global, items: &mut Placed, path: Path, prim: PrimView) -> Result<(), Fail> {
    items.push((path, StageEntry::of(alloc, prim)?))?;
    Ok(())
}

/// Appends the prim `/` with these children.
fn push_root(alloc: Global, items: &mut Placed, children: &[&str]) -> Result<(), Fail> {
    let children = names(alloc, children)?;
    push_prim(alloc, items, Path::root(alloc), prim(alloc, children))
}

fn push_busy(alloc: Global, items: &mut Placed) -> Result<(), Fail> {
    push_root(alloc, items, &["A", "_b"])?;
    let path = Path::parse(alloc, "/A")?;
    push_prim(alloc, items, path, busy_prim(alloc)?)
}

fn stage(alloc: Global) -> Result<Edition<Path, StageEntry>, Fail> {
    let mut items = Items::new(alloc);
    let done = push_busy(alloc, &mut items);
    Ok(Edition::build(alloc, 0, 0, whole(items, done)?, None)?)
}

/// Words of questions, paths, and what is answered on `stage`.
static ANSWERS: [(&str, &str, &str); 28] = [
    ("default", "/A.x", "5"),
    ("default", "/A.b:c", "Blocked"),
    (
        "default",
        "/A.d",
        "{\n    dictionary d = {\n        int k = 1\n    }\n}",
    ),
    ("default", "/A.n", "NoValue"),
    ("default", "/A.q", "NoProperty"),
    ("default", "/A.z", "NoProperty"),
    ("default", "/A/B.x", "NoPrim"),
    ("samples", "/A.x", "{-1: 2, 2.5: None}"),
    ("samples", "/A.b:c", "NoValue"),
    ("samples", "/A.r", "NoProperty"),
    ("samples", "/A{s=v}.x", "NoPrim"),
    ("targets", "/A.x", "[</B.y>]"),
    ("targets", "/A.r", "[</B>, </C/D.p>]"),
    ("targets", "/A.e", "[]"),
    ("targets", "/A.q", "NoValue"),
    ("targets", "/A.n", "NoValue"),
    ("targets", "/A.z", "NoProperty"),
    ("targets", "/Z.r", "NoPrim"),
    ("children", "/", "[\"A\", \"_b\"]"),
    ("children", "/A", "[]"),
    ("children", "/A.x", "NoPrim"),
    ("children", "/A{s=v}", "NoPrim"),
    ("faults", "/", "0"),
    ("faults", "/A", "2\n  PathTooLong \"k\\\"\"\n  Overgrown"),
    ("faults", "/_b", "NoPrim"),
    ("sites", "/", "0"),
    (
        "sites",
        "/A",
        "2\n  @dir/root.usda@ /A\n  @@@n@.usda@@@ /N{s=v}O",
    ),
    ("sites", "/_b", "NoPrim"),
];

fn question(alloc: Global, word: &str, path: &str) -> Result<Question, Fail> {
    let path = Path::parse(alloc, path)?;
    Ok(match word {
        "default" => Question::Default { path },
        "samples" => Question::Samples { path },
        "targets" => Question::Targets { path },
        "children" => Question::Children { path },
        "faults" => Question::Faults { path },
        _ => Question::Sites { path },
    })
}

/// Whether this stands there once a question on a stage is answered behind what was written before.
fn is_written(
    alloc: Global,
    edition: &Edition<Path, StageEntry>,
    before: &str,
    question: &Question,
    text: &str,
) -> Result<bool, Fail> {
    let root = AssetId::of_word(alloc, "dir/root.usda")?;
    let mut out = Vec::from_slice(alloc, before.as_bytes())?;
    push_answer(alloc, &mut out, &root, &edition.view(), question)?;
    Ok(out.as_slice() == text.as_bytes())
}

/// Whether the answer to a question on the stage is this one.
fn tells(alloc: Global, question: &Question, text: &str) -> Result<bool, Fail> {
    let edition = stage(alloc)?;
    let answer = is_written(alloc, &edition, "", question, text);
    drop(edition);
    answer
}

/// Whether this is answered to a question by a path.
fn is_answered(alloc: Global, word: &str, path: &str, answer: &str) -> Result<bool, Fail> {
    let text = format!(in alloc; "{word} {path}: {answer}\n")?;
    let asked = question(alloc, word, path)?;
    let is_told = tells(alloc, &asked, text.as_str());
    drop(asked);
    is_told
}

#[test]
fn questions_by_path(rt: HostRuntime) -> Result<(), Fail> {
    for (word, path, answer) in &ANSWERS {
        assert!(rt; is_answered(rt.alloc(), word, path, answer)?);
    }
    Ok(())
}

/// Paths, times, times as they are printed, and what is answered on `stage`.
static VALUES: [(&str, &str, &str, &str); 8] = [
    ("/A.x", "2.4999", "2.4999", "2"),
    ("/A.x", "-3", "-3", "2"),
    ("/A.x", "2.50", "2.5", "Blocked"),
    ("/A.b:c", "0.0", "0", "Blocked"),
    ("/A.n", "1e3", "1000", "NoValue"),
    ("/A.r", "-.5", "-0.5", "NoProperty"),
    ("/A.z", "+7", "7", "NoProperty"),
    ("/Z.x", "0", "0", "NoPrim"),
];

/// A question for the value of an attribute at a time.
fn value_question(alloc: Global, path: &str, time: &str) -> Result<Question, Fail> {
    let time = at(time)?;
    let path = Path::parse(alloc, path)?;
    Ok(Question::Value { path, time })
}

/// Whether the value of a row is answered.
fn is_valued(alloc: Global, row: &(&str, &str, &str, &str)) -> Result<bool, Fail> {
    let (path, written, printed, answer) = *row;
    let text = format!(in alloc; "value {path} {printed}: {answer}\n")?;
    let asked = value_question(alloc, path, written)?;
    let is_told = tells(alloc, &asked, text.as_str());
    drop(asked);
    is_told
}

#[test]
fn values_at_a_time(rt: HostRuntime) -> Result<(), Fail> {
    for row in &VALUES {
        assert!(rt; is_valued(rt.alloc(), row)?);
    }
    Ok(())
}

fn is_kept(alloc: Global, question: &Question) -> Result<bool, Fail> {
    let edition = stage(alloc)?;
    let text = "before\nchildren /A: []\n";
    let answer = is_written(alloc, &edition, "before\n", question, text);
    drop(edition);
    answer
}

fn children_are_told_behind(alloc: Global) -> Result<bool, Fail> {
    let asked = question(alloc, "children", "/A")?;
    let is_kept = is_kept(alloc, &asked);
    drop(asked);
    is_kept
}

#[test]
fn an_answer_stands_behind_what_was_written(rt: HostRuntime) -> Result<(), Fail> {
    assert!(rt; children_are_told_behind(rt.alloc())?);
    Ok(())
}

fn push_one(properties: &mut Items<PropertyView>, property: PropertyView) -> Result<(), Fail> {
    properties.push(property)?;
    Ok(())
}

/// A prim with one attribute.
fn small_prim(alloc: Global) -> Result<PrimView, Fail> {
    let x = with_default(alloc, "x", Some(Value::Whole(5)))?;
    let mut properties = Items::new(alloc);
    let done = push_one(&mut properties, x);
    let properties = whole(properties, done)?;
    let mut one = prim(alloc, Items::new(alloc));
    drop(mem::replace(&mut one.properties, properties));
    Ok(one)
}

fn push_small(alloc: Global, items: &mut Placed) -> Result<(), Fail> {
    push_root(alloc, items, &["A"])?;
    let path = Path::parse(alloc, "/A")?;
    push_prim(alloc, items, path, small_prim(alloc)?)
}

/// A stage of one prim with one attribute.
fn small_stage(alloc: Global) -> Result<Edition<Path, StageEntry>, Fail> {
    let mut items = Items::new(alloc);
    let done = push_small(alloc, &mut items);
    Ok(Edition::build(alloc, 0, 0, whole(items, done)?, None)?)
}

fn small_stage_is_flattened(alloc: Global) -> Result<bool, Fail> {
    let edition = small_stage(alloc)?;
    let text = "flatten: 37 bytes\n#usda 1.0\n\ndef \"A\"\n{\n    int x = 5\n}\n";
    let answer = is_written(alloc, &edition, "", &Question::Flatten, text);
    drop(edition);
    answer
}

#[test]
fn a_stage_as_one_layer(rt: HostRuntime) -> Result<(), Fail> {
    assert!(rt; small_stage_is_flattened(rt.alloc())?);
    Ok(())
}

static FAULTS: [(EditFault, &str); 13] = [
    (EditFault::NoLayer, "NoLayer"),
    (EditFault::LayerThere, "LayerThere"),
    (EditFault::LayerLimit, "LayerLimit"),
    (EditFault::RootLayer, "RootLayer"),
    (EditFault::WrongPath, "WrongPath"),
    (EditFault::NoParent, "NoParent"),
    (EditFault::NoSpec, "NoSpec"),
    (EditFault::SpecThere, "SpecThere"),
    (EditFault::NoSuchType, "NoSuchType"),
    (EditFault::ValueShape, "ValueShape"),
    (EditFault::TimeRange, "TimeRange"),
    (EditFault::OffsetRange, "OffsetRange"),
    (EditFault::BadArc, "BadArc"),
];

/// Whether this is the reply to a batch.
fn is_reply(alloc: Global, reply: &EditReply<EditFault>, text: &str) -> Result<bool, Fail> {
    let mut out = Vec::new(alloc);
    push_edit_reply(alloc, &mut out, reply)?;
    Ok(out.as_slice() == text.as_bytes())
}

/// Whether a batch that is refused for a fault has the reply with this word.
fn is_refusal(alloc: Global, fault: EditFault, word: &str) -> Result<bool, Fail> {
    let text = format!(in alloc; "batch refused: op 4 {word}\n")?;
    is_reply(alloc, &EditReply::Refused { op: 4, fault }, text.as_str())
}

#[test]
fn refused_batches(rt: HostRuntime) -> Result<(), Fail> {
    for (fault, word) in &FAULTS {
        assert!(rt; is_refusal(rt.alloc(), *fault, word)?);
    }
    Ok(())
}

#[test]
fn a_batch_with_a_refused_text(rt: HostRuntime) -> Result<(), Fail> {
    let fault = EditFault::LayerText(Refusal {
        kind: RefusalKind::BadHeader,
        line: 3,
        column: 17,
    });
    let reply = EditReply::Refused { op: 10, fault };
    let text = "batch refused: op 10 LayerText BadHeader 3:17\n";
    assert!(rt; is_reply(rt.alloc(), &reply, text)?);
    Ok(())
}

#[test]
fn other_replies_to_batches(rt: HostRuntime) -> Result<(), Fail> {
    let accepted = EditReply::Accepted { number: 65_536 };
    assert!(rt;
        is_reply(rt.alloc(), &accepted, "batch 65536 accepted\n")?
            && is_reply(
                rt.alloc(),
                &EditReply::JournalFull,
                "batch refused: journal full\n"
            )?
    );
    Ok(())
}

#[test]
fn replies_to_publishes(rt: HostRuntime) -> Result<(), Fail> {
    let alloc = rt.alloc();
    let mut out = Vec::new(alloc);
    push_publish_reply(alloc, &mut out, 12, 7, 262_144)?;
    push_publish_reply(alloc, &mut out, 0, 0, 1)?;
    let text = "published 12: batches 7, prims 262143\npublished 0: batches 0, prims 0\n";
    assert!(rt; out.as_slice() == text.as_bytes());
    Ok(())
}
