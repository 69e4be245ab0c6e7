//! What a token is.
ghost use Rattle.std.specs.Prelude.{◌≡◌, ◌<◌, OnSome};
ghost use Rattle.usda_lexer.specs.Words.{mark_of};

/// A mark of one byte.
#[derive(Clone, Copy, Debug, PartialEq, Eq)]
pub enum Mark {
    /// `(`.
    OpenParen,
    /// `)`.
    CloseParen,
    /// `{`.
    OpenBrace,
    /// `}`.
    CloseBrace,
    /// `[`.
    OpenBracket,
    /// `]`.
    CloseBracket,
    /// `=`.
    Equals,
    /// `,`.
    Comma,
    /// `;`.
    Semicolon,
    /// `:`.
    Colon,
    /// `.`.
    Dot,
}

/// What a token is.
#[derive(Clone, Copy, Debug, PartialEq, Eq)]
pub enum TokenKind {
    /// Identifiers joined by `:`, but for `inf` and `nan`.
    Name,
    /// A sign or none, digits with a point or none, and an exponent or none; or `inf` or `nan`, after a `-` or not.
    Number,
    /// A string between `"` or `'`, on one line, or tripled over lines.
    String,
    /// An asset between `@`, or between `@@@`.
    Asset,
    /// A path between `<` and `>`.
    Path,
    /// A mark of one byte.
    Mark(Mark),
}

/// A token, whose text is a part of the source.
#[derive(Clone, Copy, Debug)]
pub struct Token<'s> {
    /// What the token is.
    pub kind: TokenKind,
    /// The token as it is written: the source from `start` to `end`.
    pub text: &'s str,
    /// The number of its first byte in the source, from 0.
    pub start: usize,
    /// The number of the byte behind it.
    pub end: usize,
}

/// Why a source has no further token.
#[derive(Clone, Copy, Debug, PartialEq, Eq)]
pub enum LexFault {
    /// The source is not UTF-8.
    NotUtf8 {
        /// The first byte of the first sequence that is not.
        at: usize,
    },
    /// A string, an asset, a path or a comment between `/*` and `*/` has no end.
    Unclosed {
        /// The byte at which it begins.
        at: usize,
    },
    /// There is a byte with which no token begins.
    BadByte {
        /// The number of the byte, from 0.
        at: usize,
    },
    /// A number has more than 34 digits or an exponent beyond 400.
    NumberTooLong {
        /// The byte at which it begins.
        at: usize,
    },
}

/// The mark that a byte is.
pub fn mark_of(c: u8) -> Option<Mark>
    ensures value { result ≡ mark_of c }
    ensures ascii { OnSome result (c < 128) }
{
    Some(match c {
        b'(' => Mark::OpenParen,
        b')' => Mark::CloseParen,
        b'{' => Mark::OpenBrace,
        b'}' => Mark::CloseBrace,
        b'[' => Mark::OpenBracket,
        b']' => Mark::CloseBracket,
        b'=' => Mark::Equals,
        b',' => Mark::Comma,
        b';' => Mark::Semicolon,
        b':' => Mark::Colon,
        b'.' => Mark::Dot,
        _ => return None,
    })
}
