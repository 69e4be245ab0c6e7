//! The line in front of a script, read from its source.

ghost use Rattle.std.specs.Prelude.{◌≡◌, ◌+◌, ◌-◌, ◌<◌, ◌≤◌, length, drop, take, false, true, Ok, Err, IfOk, IfErr, IfSome, IfNone, slice_index, if◌then◌else◌, nat_lt, ◌==◌};
ghost use Rattle.io_edges.specs.Causes.{IsCounted};
ghost use Rattle.session_script.specs.States.{has_feed, IsScanned};
ghost use Rattle.session_script.specs.Fronts.{ReadsMore, IsFront, Grows, IsReadError};
ghost use Rattle.session_script.specs.Told.{coming, Heeds};

use crate::faults::ScriptFault;
use io_edges::{Got, Source};

/// The most bytes of a script.
pub const MAX_BYTES: usize = 16_777_216;

/// How many bytes are asked of the source at once.
const PIECE: usize = 4096;

/// What stands in front of a script.
#[derive(Clone, Copy, PartialEq, Eq)]
pub enum Front {
    /// A line of so many bytes.
    Line(usize),
    /// A line that goes past the most bytes of a script.
    TooLong,
    /// The script is at its end.
    End,
}

/// The first line feed from a place on.
fn find_feed(bytes: &[u8], from: usize) -> Option<usize>
    requires { from ≤ length bytes.now }
    ensures found { IfSome result (λ at. (from ≤ at) × (at < length bytes.now) × (slice_index bytes.now at ≡ 10) × (has_feed (take (at - from) (drop from bytes.now)) ≡ false)) }
    ensures none { IfNone result (has_feed (drop from bytes.now) ≡ false) }
{
    for i in from..bytes.len() {
        if bytes[i] == b'\n' {
            return Some(i);
        }
    }
    None
}

/// Takes the next bytes from the source; `false` where it is at its end. A fault leaves the bytes as they were.
fn read_more<S: Source>(bytes: &mut Vec<u8>, source: &mut S) -> Result<bool, ScriptFault>
    ensures more { ReadsMore result bytes.old.items bytes.new.items (S.left source.old) (S.left source.new) }
    ensures counted { IsCounted (result ≡ Err ScriptFault.ReadFault) (S.faults source.old) (S.faults source.new) }
    ensures faults { IsReadError result }
{
    bytes.reserve(PIECE)?;
    let mut piece = [0u8; PIECE];
    match source.read(&mut piece) {
        Got::Bytes(len) => match bytes.extend_from_slice(&piece[..len]) {
            Ok(()) => Ok(true),
            Err(_) => unreachable!(),
        },
        Got::End => Ok(false),
        Got::Failed => Err(ScriptFault::ReadFault),
    }
}

/// A line that ends at this place.
fn line_to(start: usize, end: usize) -> Front
    requires { start ≤ end }
    ensures { result ≡ (if nat_lt 16777216 end then Front.TooLong else Front.Line (end - start)) }
{
    if end > MAX_BYTES {
        Front::TooLong
    } else {
        Front::Line(end - start)
    }
}

/// What is in front where so many bytes are held without a line feed, and the source is at its end.
fn last_front(len: usize) -> Front
    ensures { result ≡ (if len == 0 then Front.End else Front.Line len) }
{
    if len == 0 {
        Front::End
    } else {
        Front::Line(len)
    }
}

/// The line in front of the bytes behind the start, of which those up to `scanned` have no line feed. It reads from the
/// source only where these bytes have no whole line, and not again once the source told its end, which `ended` remembers.
/// A fault leaves what was read before it.
pub fn read_front<S: Source>(
    bytes: &mut Vec<u8>,
    start: usize,
    scanned: &mut usize,
    ended: &mut bool,
    source: &mut S,
) -> Result<Front, ScriptFault>
    requires scan { IsScanned start scanned.old bytes.old.items }
    requires short { start ≤ 16777216 }
    ensures scan { IsScanned start scanned.new bytes.new.items }
    ensures more { Grows bytes.old.items bytes.new.items (coming ended.old (S.left source.old)) (coming ended.new (S.left source.new)) }
    ensures front { IfOk result (λ f. IsFront f start bytes.new.items ended.new (coming ended.old (S.left source.old)) (coming ended.new (S.left source.new))) }
    ensures heeds { Heeds ended.old ended.new (S.left source.old) (S.left source.new) }
    ensures quiet { ended.old ≡ true → source.new ≡ source.old }
    ensures counted { IsCounted (result ≡ Err ScriptFault.ReadFault) (S.faults source.old) (S.faults source.new) }
    ensures faults { IsReadError result }
    // The source is read only where no whole line is held.
    ensures held { has_feed (drop start bytes.old.items) ≡ true → source.new ≡ source.old }
    // At a fault no whole line is left of what was read, the source has not told its end, and a script may have more bytes.
    ensures none { IfErr result (λ _. (has_feed (drop start bytes.new.items) ≡ false) × (ended.new ≡ false) × (length bytes.new.items ≤ 16777216)) }
{
    loop {
        if let Some(at) = find_feed(bytes, *scanned) {
            return Ok(line_to(start, at + 1));
        }
        *scanned = bytes.len();
        if bytes.len() > MAX_BYTES {
            return Ok(Front::TooLong);
        }
        if *ended {
            return Ok(last_front(bytes.len() - start));
        }
        if !read_more(bytes, source)? {
            *ended = true;
            return Ok(last_front(bytes.len() - start));
        }
    }
}
