//! Reads a line.
ghost use Rattle.std.specs.Prelude.{◌≡◌, ◌≤◌, IfOk, length};
ghost use Rattle.std.specs.Str.{is_utf8};
ghost use Rattle.script_words.specs.Answers.{Finds};
ghost use Rattle.script_lines.specs.Lines.{open_line, field_worded, value_worded, spec_worded, question_worded, worded, begins_comment, is_open_comment, comment_line, word_line, line_from, blanks_len, line_of};

use crate::field_lines::{list_line, sublayers_line};
use crate::line::Line;
use crate::meta_lines::{
    load_line, meta_line, order_line, select_line, unload_line, unmeta_line, unrule_line,
    unselect_line,
};
use crate::question_lines::{
    asked, children_line, default_line, faults_line, samples_line, sites_line, targets_line,
    value_line,
};
use crate::spec_lines::{
    attribute_line, new_layer_line, relationship_line, remove_line, spec_line, variant_line,
};
use crate::value_lines::{clear_line, sample_line, set_line, unsample_line};
use script_words::{LineFault, ended, layer_at, name_at, tokens_of};
use stage_questions::Question;
use std::alloc::{AllocError, Global};
use usda_lexer::{LexFault, Tokens, begins, is_blank};

/// Behind `open`: a layer.
#[tactic(auto, unfolding(crate::specs::Lines::open_line))]
fn open_line(alloc: Global, bytes: &[u8]) -> Result<Line, LineFault>
    ensures { Finds result (open_line bytes.now) }
{
    let (layer, rest) = layer_at(alloc, bytes)?;
    ended(Line::Open(layer), rest)
}

/// Lines of lists, selections, orders, sublayers and load rules.
#[tactic(auto, unfolding(crate::specs::Lines::field_worded))]
fn field_worded(alloc: Global, word: &str, bytes: &[u8]) -> Result<Line, LineFault>
    ensures { Finds result (field_worded word.now bytes.now) }
{
    match word {
        "list" => list_line(alloc, bytes),
        "select" => select_line(alloc, bytes),
        "unselect" => unselect_line(alloc, bytes),
        "order" => order_line(alloc, bytes),
        "sublayers" => sublayers_line(alloc, bytes),
        "load" => load_line(alloc, bytes),
        "unload" => unload_line(alloc, bytes),
        "unrule" => unrule_line(alloc, bytes),
        _ => Err(LineFault::Bad),
    }
}

/// Lines of values and metadata, and those of `field_worded`.
#[tactic(auto, unfolding(crate::specs::Lines::value_worded))]
fn value_worded(alloc: Global, word: &str, bytes: &[u8]) -> Result<Line, LineFault>
    ensures { Finds result (value_worded word.now bytes.now) }
{
    match word {
        "set" => set_line(alloc, bytes),
        "clear" => clear_line(alloc, bytes),
        "sample" => sample_line(alloc, bytes),
        "unsample" => unsample_line(alloc, bytes),
        "meta" => meta_line(alloc, bytes),
        "unmeta" => unmeta_line(alloc, bytes),
        _ => field_worded(alloc, word, bytes),
    }
}

/// Lines that add and remove, and those of `value_worded`.
#[tactic(auto, unfolding(crate::specs::Lines::spec_worded))]
fn spec_worded(alloc: Global, word: &str, bytes: &[u8]) -> Result<Line, LineFault>
    ensures { Finds result (spec_worded word.now bytes.now) }
{
    match word {
        "newlayer" => new_layer_line(alloc, bytes),
        "spec" => spec_line(alloc, bytes),
        "variant" => variant_line(alloc, bytes),
        "attr" => attribute_line(alloc, bytes),
        "rel" => relationship_line(alloc, bytes),
        "remove" => remove_line(alloc, bytes),
        _ => value_worded(alloc, word, bytes),
    }
}

/// Questions, and the lines of `spec_worded`.
#[tactic(auto, unfolding(crate::specs::Lines::question_worded))]
fn question_worded(alloc: Global, word: &str, bytes: &[u8]) -> Result<Line, LineFault>
    ensures { Finds result (question_worded word.now bytes.now) }
{
    match word {
        "value" => value_line(alloc, bytes),
        "default" => default_line(alloc, bytes),
        "samples" => samples_line(alloc, bytes),
        "targets" => targets_line(alloc, bytes),
        "children" => children_line(alloc, bytes),
        "faults" => faults_line(alloc, bytes),
        "sites" => sites_line(alloc, bytes),
        "flatten" => asked(Question::Flatten, bytes),
        _ => spec_worded(alloc, word, bytes),
    }
}

/// A line that begins with this word.
#[tactic(auto, unfolding(crate::specs::Lines::worded))]
fn worded(alloc: Global, word: &str, bytes: &[u8]) -> Result<Line, LineFault>
    ensures { Finds result (worded word.now bytes.now) }
{
    match word {
        "begin" => ended(Line::Begin, bytes),
        "commit" => ended(Line::Commit, bytes),
        "publish" => ended(Line::Publish, bytes),
        "open" => open_line(alloc, bytes),
        _ => question_worded(alloc, word, bytes),
    }
}

/// Whether a byte, before these, begins a comment.
fn begins_comment(c: u8, rest: &[u8]) -> bool
    ensures { result ≡ begins_comment c rest.now }
{
    c == b'#' || (c == b'/' && (begins(b'/', rest) || begins(b'*', rest)))
}

/// Whether a comment in front has no end.
#[tactic(auto, unfolding(crate::specs::Lines::is_open_comment))]
fn is_open_comment(tokens: &Tokens<'_>) -> bool
    ensures { result ≡ is_open_comment tokens.now }
{
    match tokens.peek() {
        Err(LexFault::Unclosed { at }) => at == 0,
        _ => false,
    }
}

/// A line that begins with a comment.
#[tactic(auto, unfolding(crate::specs::Lines::comment_line))]
fn comment_line(bytes: &[u8]) -> Result<Line, LineFault>
    ensures { Finds result (comment_line bytes.now) }
{
    let tokens = tokens_of(bytes).ok_or(LineFault::Bad)?;
    if is_open_comment(&tokens) {
        Err(LineFault::Bad)
    } else {
        Ok(Line::Blank)
    }
}

/// A line that begins with a word.
#[tactic(auto, unfolding(crate::specs::Lines::word_line))]
fn word_line(alloc: Global, bytes: &[u8]) -> Result<Line, LineFault>
    ensures { Finds result (word_line bytes.now) }
{
    let (word, rest) = name_at(bytes)?;
    worded(alloc, word, rest)
}

/// A line without the blanks in front.
#[tactic(auto, unfolding(crate::specs::Lines::line_from))]
fn line_from(alloc: Global, bytes: &[u8]) -> Result<Line, LineFault>
    ensures { Finds result (line_from bytes.now) }
{
    let Some((first, rest)) = bytes.split_first() else {
        return Ok(Line::Blank);
    };
    if begins_comment(*first, rest) {
        comment_line(bytes)
    } else {
        word_line(alloc, bytes)
    }
}

/// How many blanks stand in front.
fn blanks_len(bytes: &[u8]) -> usize
    ensures value { result ≡ blanks_len bytes.now }
    ensures within { result ≤ length bytes.now }
{
    for (i, c) in bytes.iter().enumerate() {
        if !is_blank(*c) {
            return i;
        }
    }
    bytes.len()
}

/// Whether the bytes are UTF-8.
fn is_text(bytes: &[u8]) -> bool
    ensures { result ≡ is_utf8 bytes.now }
{
    match Tokens::new(bytes) {
        Ok(_) => true,
        Err(_) => false,
    }
}

#[tactic(auto, unfolding(crate::specs::Lines::line_of))]
fn line_of(alloc: Global, bytes: &[u8]) -> Result<Line, LineFault>
    ensures { Finds result (line_of bytes.now) }
{
    if !is_text(bytes) {
        return Err(LineFault::Bad);
    }
    let (_, rest) = bytes.split_at(blanks_len(bytes));
    line_from(alloc, rest)
}

/// What a line of a script says; nothing where it is no line of one.
///
/// A line goes up to its line feed, which it may have or not. Layers are named from the working folder. A path of a value or a list that
/// does not begin with `/` is taken from the prim of the path that the line names.
pub fn read_line(alloc: Global, bytes: &[u8]) -> Result<Option<Line>, AllocError>
    ensures { IfOk result (λ line. line ≡ line_of bytes.now) }
{
    match line_of(alloc, bytes) {
        Ok(line) => Ok(Some(line)),
        Err(LineFault::Bad) => Ok(None),
        Err(LineFault::NoMemory) => Err(AllocError),
    }
}
