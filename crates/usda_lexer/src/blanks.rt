//! Blanks and comments.
ghost use Rattle.std.specs.Prelude.{◌≡◌, IfOk};
ghost use Rattle.std.specs.Str.{IsCharBoundary};
ghost use Rattle.usda_lexer.specs.Blanks.{is_blank, begins, between_from, between_after, opened_at, ended_between, gap};
ghost use Rattle.usda_lexer.specs.declared.blanks.Between.TheVariants.{Blank};

/// Where a reader of blanks and comments stands.
#[derive(Clone, Copy, PartialEq, Eq)]
pub enum Between {
    /// In no comment.
    Blank,
    /// Between the two bytes of a `//`.
    Slash,
    /// In a comment that its line ends.
    Line,
    /// Between the two bytes of a `/*`.
    Opening,
    /// In a comment that `*/` ends.
    Block,
    /// Between the two bytes of that `*/`.
    Closing,
}

/// Whether the byte is a space, a tab, a carriage return or a line feed.
pub fn is_blank(c: u8) -> bool
    ensures { result ≡ is_blank c }
{
    c == b' ' || c == b'\t' || c == b'\r' || c == b'\n'
}

/// Whether the byte stands in front.
pub fn begins(c: u8, bytes: &[u8]) -> bool
    ensures { result ≡ begins c bytes.now }
{
    match bytes {
        [] => false,
        [first, ..] => *first == c,
    }
}

/// Where a byte leads that stands in no comment; `None` where a token begins with it.
fn between_from(c: u8, rest: &[u8]) -> Option<Between>
    ensures { result ≡ between_from c rest.now }
{
    if is_blank(c) {
        Some(Between::Blank)
    } else if c == b'#' {
        Some(Between::Line)
    } else if c == b'/' && begins(b'/', rest) {
        Some(Between::Slash)
    } else if c == b'/' && begins(b'*', rest) {
        Some(Between::Opening)
    } else {
        None
    }
}

fn between_after(state: Between, c: u8, rest: &[u8]) -> Option<Between>
    ensures { result ≡ between_after state c rest.now }
{
    match state {
        Between::Blank => between_from(c, rest),
        Between::Slash => Some(Between::Line),
        Between::Line => Some(if c == b'\n' {
            Between::Blank
        } else {
            Between::Line
        }),
        Between::Opening => Some(Between::Block),
        Between::Block => Some(if c == b'*' && begins(b'/', rest) {
            Between::Closing
        } else {
            Between::Block
        }),
        Between::Closing => Some(Between::Blank),
    }
}

/// Where the comment begins that is open.
fn opened_at(state: Between, opened: usize, len: usize) -> usize
    ensures { result ≡ opened_at state opened len }
{
    match state {
        Between::Opening => len,
        _ => opened,
    }
}

fn ended_between(state: Between, opened: usize, len: usize) -> Result<usize, usize>
    ensures { result ≡ ended_between state opened len }
{
    match state {
        Between::Blank | Between::Slash | Between::Line => Ok(len),
        _ => Err(opened),
    }
}

/// How many bytes of blanks and comments stand in front. The error is behind how many of them a comment begins that has no
/// end.
pub fn gap_len(text: &str) -> Result<usize, usize>
    ensures value { result ≡ gap Blank 0 0 text.now }
    ensures boundary { IfOk result (λ n. IsCharBoundary text.now n) }
{
    let bytes = text.as_bytes();
    let mut state = Between::Blank;
    let mut opened = 0;
    for (i, c) in bytes.iter().enumerate() {
        let Some(next) = between_after(state, *c, &bytes[i + 1..]) else {
            return Ok(i);
        };
        opened = opened_at(next, opened, i);
        state = next;
    }
    ended_between(state, opened, bytes.len())
}
