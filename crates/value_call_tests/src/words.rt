//! Texts and their words.
use std::alloc::Global;
use std::fmt::Write;
use std::test::Fail;
use usda_grammar::{Keyword, WordKind};
use usda_lexer::LexFault;
use usda_words::{Word, Words};

fn letter(kind: WordKind) -> char {
    match kind {
        WordKind::Word(Keyword::Other) => 'n',
        WordKind::Word(_) => 'k',
        WordKind::Number => '#',
        WordKind::Quoted => 'q',
        WordKind::Asset => 'a',
        WordKind::Path => 'p',
        WordKind::Dot => '.',
        WordKind::Fault => '!',
        _ => 'm',
    }
}

/// A word in print: its first byte, the letter of its kind, a second one where it is too long, and its text.
fn push_word(out: &mut String, word: &Word<'_>) -> Result<(), Fail> {
    write!(out, "{}", word.start)?;
    out.push(letter(word.kind))?;
    if word.too_long {
        out.push('L')?;
    }
    out.push_str(word.text)?;
    out.push('|')?;
    Ok(())
}

fn printed(alloc: Global, source: &[u8]) -> Result<String, Fail> {
    let mut out = String::new(alloc);
    let mut words = match Words::new(source) {
        Ok(words) => words,
        Err(LexFault::NotUtf8 { at }) => {
            write!(out, "{at}")?;
            return Ok(out);
        }
        Err(_) => return Err(Fail::from("another fault")),
    };
    for _step in 0..source.len() + 1 {
        match words.next() {
            Some(word) => push_word(&mut out, &word)?,
            None => return Ok(out),
        }
    }
    Ok(out)
}

static WORDS: [(&str, &str); 27] = [
    ("", ""),
    ("#usda 1.0\ndef", "10kdef|"),
    ("#usda 1.0 \t\r\n\n(x", "14m(|15nx|"),
    ("def Def over", "0kdef|4nDef|8kover|"),
    ("custom:a rel", "0ncustom:a|9krel|"),
    ("inf nan -inf infinity", "0#inf|4#nan|8#-inf|13ninfinity|"),
    ("None 'def' @a@ </A>", "0kNone|5q'def'|11a@a@|15p</A>|"),
    ("x.timeSamples", "0nx|1..|2ktimeSamples|"),
    ("x .timeSamples", "0nx|2!.|3ktimeSamples|"),
    ("x. timeSamples", "0nx|1..|3!timeSamples|"),
    ("x/* */.connect", "0nx|6!.|7kconnect|"),
    ("x.# c\nconnect", "0nx|1..|6!connect|"),
    ("x.// c\nconnect", "0nx|1..|7!connect|"),
    ("x.\nspline", "0nx|1..|3!spline|"),
    ("x.5", "0nx|1#.5|"),
    ("x.5.a", "0nx|1#.5|3..|4na|"),
    ("x..a", "0nx|1..|2..|3na|"),
    ("x. .a", "0nx|1..|3!.|4na|"),
    (".a", "0..|1na|"),
    (" .a", "1!.|2na|"),
    ("x = @", "0nx|2m=|4!|"),
    ("x = \"a\nb\"", "0nx|2m=|4!|"),
    ("x ? y", "0nx|2!|"),
    ("x /* y", "0nx|2!|"),
    ("x = 12345678901234567890123456789012345 y", "0nx|2m=|4#L|"),
    ("x.\n1e999", "0nx|1..|3!L|"),
    ("a::b é", "0na|1m:|2m:|3nb|5né|"),
];

fn are_words(alloc: Global, source: &[u8], words: &str) -> Result<bool, Fail> {
    let got = printed(alloc, source)?;
    Ok(got.as_str() == words)
}

#[test]
fn texts_have_these_words(rt: HostRuntime) -> Result<(), Fail> {
    for (text, words) in &WORDS {
        assert!(rt; are_words(rt.alloc(), text.as_bytes(), words)?);
    }
    Ok(())
}

#[test]
fn a_byte_that_is_no_text_is_told(rt: HostRuntime) -> Result<(), Fail> {
    assert!(rt; are_words(rt.alloc(), b"a b \xe9 c".as_slice(), "4")?);
    Ok(())
}

#[test]
fn nothing_stands_behind_the_last_word(rt: HostRuntime) -> Result<(), Fail> {
    let Ok(mut words) = Words::new(b"x @".as_slice()) else {
        return Err(Fail::from("no words"));
    };
    assert!(rt; words.next().is_some() && words.next().is_some());
    for _again in 0..3 {
        assert!(rt; words.next().is_none());
    }
    Ok(())
}
