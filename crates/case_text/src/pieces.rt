// Octets as text: pieces of hexadecimal digits or of characters.
use crate::text::first_word;
use crate::trouble::Trouble;
use std::alloc::Global;

/// The octets of a list of pieces with blanks between them. A piece is hexadecimal digits, as `0a0b`, or characters in
/// quotes, as `"public"`, where \n, \r, \t and \\ stand for what they do in Rust. A count before a piece, as in `60*00`,
/// repeats it.
pub fn octets(alloc: Global, text: &str) -> Result<Vec<u8>, Trouble> {
    let mut all = Vec::new(alloc);
    let mut rest = text.trim();
    for _ in 0..text.len() {
        if rest.is_empty() {
            break;
        }
        let (count, body) = counted(rest);
        rest = push_piece(alloc, count, body, &mut all)?.trim_start();
    }
    Ok(all)
}

/// The octets of one word: its characters, or those of the pieces that it is where it has quotes.
pub fn word_octets(alloc: Global, word: &str) -> Result<Vec<u8>, Trouble> {
    if word.contains('"') {
        octets(alloc, word)
    } else {
        Ok(Vec::from_slice(alloc, word.as_bytes())?)
    }
}

/// A text. Where a word `digits` stands before octets at its end, it ends with a word of the hexadecimal digits of these instead.
pub fn with_digits(alloc: Global, text: &str) -> Result<String, Trouble> {
    let Some((front, pieces)) = text.split_once(" digits ") else {
        return Ok(String::from_str(alloc, text)?);
    };
    let digits = hex::encode(alloc, &octets(alloc, pieces)?)?;
    Ok(format!(in alloc; "{front} {digits}")?)
}

// The count before the first piece, and the pieces from that one on.
fn counted(text: &str) -> (usize, &str) {
    if let Some((count, body)) = text.split_once('*')
        && let Ok(count) = count.parse::<usize>()
    {
        return (count, body);
    }
    (1, text)
}

// Adds the first piece so many times. The result is what comes after it.
fn push_piece<'a>(
    alloc: Global,
    count: usize,
    text: &'a str,
    all: &mut Vec<u8>,
) -> Result<&'a str, Trouble> {
    let Some(quoted) = text.strip_prefix('"') else {
        let (digits, rest) = first_word(text);
        let piece = hex::decode(alloc, digits).map_err(|_| Trouble::Form(
            "no pairs of hexadecimal digits",
        ))?;
        push_times(count, &piece, all)?;
        return Ok(rest);
    };
    let Some((characters, rest)) = quoted.split_once('"') else {
        return Err(Trouble::Form("a text without an end"));
    };
    let piece = unescaped(alloc, characters)?;
    push_times(count, &piece, all)?;
    Ok(rest)
}

fn push_times(count: usize, piece: &[u8], all: &mut Vec<u8>) -> Result<(), Trouble> {
    for _ in 0..count {
        all.extend_from_slice(piece)?;
    }
    Ok(())
}

fn unescaped(alloc: Global, characters: &str) -> Result<Vec<u8>, Trouble> {
    let mut piece = Vec::new(alloc);
    let mut is_escape = false;
    for octet in characters.bytes() {
        if is_escape {
            piece.push(escape(octet)?)?;
            is_escape = false;
        } else if octet == b'\\' {
            is_escape = true;
        } else {
            piece.push(octet)?;
        }
    }
    Ok(piece)
}

fn escape(octet: u8) -> Result<u8, Trouble> {
    match octet {
        b'n' => Ok(b'\n'),
        b'r' => Ok(b'\r'),
        b't' => Ok(b'\t'),
        b'\\' => Ok(b'\\'),
        _ => Err(Trouble::Form("an escape that isn't \\n, \\r, \\t or \\\\")),
    }
}
