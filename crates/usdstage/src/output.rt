//! Writes a text into a sink.

ghost use Rattle.std.specs.Prelude.{◌≡◌, ◌≤◌, ℕ, take, drop, length};
ghost use Rattle.std.specs.Io.KnownBytes.{Appends};
ghost use Rattle.io_edges.specs.Causes.{IsCounted};

use io_edges::{Put, Sink};

/// How far a text was written.
#[derive(Clone, Copy, PartialEq, Eq)]
pub enum Written {
    /// All of it.
    Whole,
    /// A write failed before its end.
    Failed,
    /// Memory ran out before its end.
    NoMemory,
}

/// The bytes from a place on.
fn rest_of(text: &[u8], at: usize) -> &[u8]
    requires { at ≤ length text.now }
    ensures { result.now ≡ drop at text.now }
{
    &text[at..]
}

/// Writes this text, as many bytes at once as the sink takes. What is taken is a front of it.
pub fn write_all<K: Sink>(out: &mut K, text: &[u8]) -> Written
    ensures whole { result ≡ Written.Whole → Appends (K.taken out.old) (K.taken out.new) text.now }
    ensures front { (n : ℕ) × Appends (K.taken out.old) (K.taken out.new) (take n text.now) }
    ensures counted { IsCounted (result ≡ Written.Failed) (K.faults out.old) (K.faults out.new) }
{
    let mut at = 0;
    while at < text.len() {
        match out.write(rest_of(text, at)) {
            Put::Took(n) => at = at + n,
            Put::Failed => return Written::Failed,
            Put::NoMemory => return Written::NoMemory,
        }
    }
    Written::Whole
}
