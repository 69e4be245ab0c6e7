//! How a run ends.

ghost use Rattle.std.specs.Prelude.{◌≡◌, ◌++◌, IfOk, OnOk, codes, string_bytes};
ghost use Rattle.std.specs.Fmt.{decimal};
ghost use Rattle.usdstage.specs.Kinds.{kind_text};
ghost use Rattle.usdstage.specs.Refusals.{refusal_text};

use asset_names::AssetId;
use prim_view::refusal_name;
use sdf_specs::Refusal;
use session_script::ScriptKind;
use std::alloc::{AllocError, Global};

/// How a run has ended. The words are judged first, then each file as it is fetched.
#[derive(PartialEq, Eq, Drop)]
pub enum Status {
    /// All was read, and all of the output was written.
    Done,
    /// The words are no command.
    Usage,
    /// A fetch failed, or a read of the script.
    ReadFault,
    /// A write failed. What was taken before is the front of the output.
    WriteFault,
    /// There is no file of this name, which is that of the root or the session layer, or no layer has its text.
    RootRefused {
        /// The layer's name.
        name: AssetId,
        /// Why no layer has the text, and where; none where there is no file.
        refusal: Option<Refusal>,
    },
    /// This line of the script, counted from 1, is refused. All lines before it were answered.
    ScriptRefused {
        /// The line's number. Where the script ends too early, it is that after the last line.
        line: u64,
        /// What is wrong with it.
        kind: ScriptKind,
    },
    /// A stage has more than 262,144 paths. What was taken before is the front of the output.
    StageFull,
    /// More names of layers are needed than a world may have, or more bytes were fetched than may be.
    WorldTooLarge,
    /// Memory ran out. What was taken before is the front of the output.
    NoMemory,
}

/// The line about a file of this name, as far as the name.
fn line_about(alloc: Global, name: &AssetId) -> Result<String, AllocError>
    ensures { IfOk result (λ line. string_bytes line ≡ codes "usdstage: " ++ name.now) }
{
    let mut line = String::from_str(alloc, "usdstage: ")?;
    line.push_str(name.text())?;
    Ok(line)
}

/// Adds a colon and a number.
fn push_place(alloc: Global, line: &mut String, number: u64) -> Result<(), AllocError>
    ensures { OnOk result (string_bytes line.new ≡ string_bytes line.old ++ codes ":" ++ decimal number) }
{
    let number = number.to_string(alloc)?;
    line.push_str(":")?;
    line.push_str(number.as_str())
}

/// Adds why a root is refused.
fn push_refusal(
    alloc: Global,
    line: &mut String,
    refusal: &Option<Refusal>,
) -> Result<(), AllocError>
    ensures { OnOk result (string_bytes line.new ≡ string_bytes line.old ++ refusal_text refusal.now) }
{
    let Some(refusal) = refusal else {
        return line.push_str(": absent");
    };
    push_place(alloc, line, refusal.line)?;
    push_place(alloc, line, refusal.column)?;
    line.push_str(": ")?;
    line.push_str(refusal_name(refusal.kind))
}

/// The line about a root that is refused.
fn line_about_root(
    alloc: Global,
    name: &AssetId,
    refusal: &Option<Refusal>,
) -> Result<String, AllocError>
    ensures { IfOk result (λ line. string_bytes line ≡ codes "usdstage: " ++ name.now ++ refusal_text refusal.now) }
{
    let mut line = line_about(alloc, name)?;
    push_refusal(alloc, &mut line, refusal)?;
    Ok(line)
}

/// What is wrong with a line of a script, in a word.
fn kind_text(kind: ScriptKind) -> &'static str
    ensures { result.now ≡ kind_text kind }
{
    match kind {
        ScriptKind::BadLine => "BadLine",
        ScriptKind::Unfinished => "Unfinished",
        ScriptKind::TooLong => "TooLong",
    }
}

/// The line about a line of the script.
fn line_about_script(alloc: Global, number: u64, kind: ScriptKind) -> Result<String, AllocError>
    ensures { IfOk result (λ line. string_bytes line ≡ codes "usdstage: script line " ++ decimal number ++ codes ": " ++ kind_text kind) }
{
    let mut line = String::from_str(alloc, "usdstage: script line ")?;
    let number = number.to_string(alloc)?;
    line.push_str(number.as_str())?;
    line.push_str(": ")?;
    line.push_str(kind_text(kind))?;
    Ok(line)
}

/// A line of these words.
fn plain_line(alloc: Global, words: &str) -> Result<String, AllocError>
    ensures { IfOk result (λ line. string_bytes line ≡ words.now) }
{
    Ok(String::from_str(alloc, words)?)
}

impl Status {
    ghost use Rattle.usdstage.specs.Statuses.{exit_code, status_line};

    /// The exit status of the program.
    pub fn code(&self) -> u8
        ensures { result ≡ exit_code self.now }
    {
        match self {
            Status::Done => 0,
            Status::Usage => 2,
            Status::ReadFault => 3,
            Status::WriteFault => 4,
            Status::RootRefused { .. } => 5,
            Status::ScriptRefused { .. } => 6,
            Status::StageFull => 7,
            Status::WorldTooLarge => 8,
            Status::NoMemory => 9,
        }
    }

    /// The line on standard error, without its line feed. It is empty at `Done`, where there is none.
    pub fn line(&self, alloc: Global) -> Result<String, AllocError>
        ensures { IfOk result (λ line. string_bytes line ≡ status_line self.now) }
    {
        match self {
            Status::Done => Ok(String::new(alloc)),
            Status::Usage => plain_line(alloc, "usdstage: not a command"),
            Status::ReadFault => plain_line(alloc, "usdstage: reading failed"),
            Status::WriteFault => plain_line(alloc, "usdstage: writing failed"),
            Status::RootRefused { name, refusal } => line_about_root(alloc, name, refusal),
            Status::ScriptRefused { line, kind } => line_about_script(alloc, *line, *kind),
            Status::StageFull => plain_line(alloc, "usdstage: more than 262144 paths"),
            Status::WorldTooLarge => plain_line(alloc, "usdstage: too many layers or bytes"),
            Status::NoMemory => plain_line(alloc, "usdstage: out of memory"),
        }
    }
}
