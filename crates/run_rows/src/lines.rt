// Lines in a short form, and those that stand in a text.
use std::alloc::Global;
use std::test::Fail;

/// Puts a line behind a text. `@N` at its end stands for N letters `a`.
fn put_line(text: &mut Vec<u8>, line: &str) -> Result<(), Fail> {
    match line.split_once("@") {
        Some((front, count)) => {
            text.extend_from_slice(front.as_bytes())?;
            for _ in 0..count.parse::<u32>()? {
                text.push(b'a')?;
            }
        }
        None => text.extend_from_slice(line.as_bytes())?,
    }
    text.push(b'\n')?;
    Ok(())
}

/// Puts lines behind a text that are separated by ` + `.
fn put_lines(text: &mut Vec<u8>, lines: &str) -> Result<(), Fail> {
    for line in lines.split(" + ") {
        put_line(text, line)?;
    }
    Ok(())
}

/// The text of lines that are separated by ` / `. `N * LINE + LINE` stands for these lines N times. No words are no lines.
pub fn lines_of(alloc: Global, short: &str) -> Result<Vec<u8>, Fail> {
    let mut text = Vec::new(alloc);
    if short.is_empty() {
        return Ok(text);
    }
    for lines in short.split(" / ") {
        match lines.split_once(" * ") {
            Some((count, again)) => {
                for _ in 0..count.parse::<u32>()? {
                    put_lines(&mut text, again)?;
                }
            }
            None => put_line(&mut text, lines)?,
        }
    }
    Ok(text)
}

/// What stands behind the first line of a text, and that line.
fn first_line(text: &[u8]) -> Option<(&[u8], &[u8])> {
    let end = text.iter().position(|b| *b == b'\n')?;
    Some((&text[..end], &text[end + 1..]))
}

/// Whether a line is the one that is wanted. A wanted line that ends with `..` is one by its front.
fn is_wanted(wanted: &[u8], line: &[u8]) -> bool {
    match wanted.strip_suffix(b"..") {
        Some(front) => line.starts_with(front),
        None => line == wanted,
    }
}

/// What stands behind the first line that is wanted, where there is one.
fn behind<'a>(wanted: &[u8], text: &'a [u8]) -> Option<&'a [u8]> {
    let mut rest = text;
    for _ in 0..text.len() {
        let (line, behind) = first_line(rest)?;
        if is_wanted(wanted, line) {
            return Some(behind);
        }
        rest = behind;
    }
    None
}

/// Whether these lines stand in a text in their order, with other lines between them or not.
pub fn stands_in(wanted: &[u8], text: &[u8]) -> bool {
    let (mut wanted, mut rest) = (wanted, text);
    for _ in 0..wanted.len() {
        let Some((line, others)) = first_line(wanted) else {
            break;
        };
        match behind(line, rest) {
            Some(after) => rest = after,
            None => return false,
        }
        wanted = others;
    }
    true
}

/// How many lines of a text begin with these words.
pub fn count_of(front: &[u8], text: &[u8]) -> u64 {
    let mut count = 0u64;
    for line in text.split(|b| *b == b'\n') {
        if line.starts_with(front) {
            count = count.saturating_add(1);
        }
    }
    count
}

/// The last line of a text that begins with these words, without them.
pub fn last_of<'a>(front: &[u8], text: &'a [u8]) -> &'a [u8] {
    let mut last: &[u8] = &[];
    for line in text.split(|b| *b == b'\n') {
        if let Some(rest) = line.strip_prefix(front) {
            last = rest;
        }
    }
    last
}
