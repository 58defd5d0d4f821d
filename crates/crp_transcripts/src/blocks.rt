//! The blocks of a transcript.
use std::alloc::{AllocError, Global};

/// What a block says, by the mark that its first line begins with.
#[derive(Clone, Copy, PartialEq, Eq)]
pub(crate) enum Mark {
    Note,
    Write,
    Symlink,
    HardLink,
    Run,
    Errors,
    Status,
    Holds,
    Gone,
}

const MARKS: [(&str, Mark); 9] = [
    ("# ", Mark::Note),
    ("> ", Mark::Write),
    ("~ ", Mark::Symlink),
    ("+ ", Mark::HardLink),
    ("$ crp", Mark::Run),
    ("!", Mark::Errors),
    ("? ", Mark::Status),
    ("= ", Mark::Holds),
    ("- ", Mark::Gone),
];

/// A block: the number of its first line, from 1, its mark, the words behind the mark, and its text.
#[derive(Drop)]
pub(crate) struct Block<'a> {
    pub line: usize,
    pub mark: Mark,
    pub words: &'a str,
    pub text: Vec<u8>,
}

// The mark of a line and the words behind it; nothing where the line is of a text.
fn marked(line: &str) -> Option<(Mark, &str)> {
    for (sign, mark) in MARKS {
        if let Some(words) = line.strip_prefix(sign) {
            return Some((mark, words));
        }
    }
    None
}

// Where the reading of an escape stands.
#[derive(Clone, Copy)]
enum Escape {
    Outside,
    Begun,
    Byte,
    Half(u8),
}

fn digit_of(byte: u8) -> Option<u8> {
    match byte {
        b'0'..=b'9' => Some(byte - b'0'),
        b'a'..=b'f' => Some(byte - b'a' + 10),
        _ => None,
    }
}

// Where an escape stands after one more byte of a line, and the byte that is meant if it is whole. Nothing where the escape is malformed.
fn follow(escape: Escape, byte: u8) -> Option<(Escape, Option<u8>)> {
    match (escape, byte) {
        (Escape::Outside, b'\\') => Some((Escape::Begun, None)),
        (Escape::Outside, _) => Some((Escape::Outside, Some(byte))),
        (Escape::Begun, b'\\') => Some((Escape::Outside, Some(b'\\'))),
        (Escape::Begun, b'x') => Some((Escape::Byte, None)),
        (Escape::Begun, _) => None,
        (Escape::Byte, _) => digit_of(byte).map(|high| (Escape::Half(high), None)),
        (Escape::Half(high), _) => digit_of(byte).map(|low| (
            Escape::Outside,
            Some(high.wrapping_mul(16).wrapping_add(low)),
        )),
    }
}

// Adds a line of a text, and returns whether its escapes are well formed.
fn push_line(text: &mut Vec<u8>, line: &str) -> Result<bool, AllocError> {
    let mut escape = Escape::Outside;
    for byte in line.as_bytes() {
        let Some((next, meant)) = follow(escape, *byte) else {
            return Ok(false);
        };
        escape = next;
        if let Some(meant) = meant {
            text.push(meant)?;
        }
    }
    match escape {
        Escape::Outside => {
            text.push(b'\n')?;
            Ok(true)
        }
        Escape::Begun => Ok(true),
        Escape::Byte | Escape::Half(_) => Ok(false),
    }
}

// Adds a line to the text of the last block, and returns whether there is one and the line is well formed.
fn push_to_last(blocks: &mut Vec<Block<'_>>, line: &str) -> Result<bool, AllocError> {
    match blocks.last_mut() {
        Some(block) => push_line(&mut block.text, line),
        None => Ok(false),
    }
}

/// The blocks of a transcript, in order; or the number of the first line that is malformed, or stands before all blocks.
pub(crate) fn blocks_of(
    alloc: Global,
    transcript: &str,
) -> Result<Result<Vec<Block<'_>>, usize>, AllocError> {
    let mut blocks = Vec::new(alloc);
    let mut number: usize = 0;
    for line in transcript.lines() {
        number = number.saturating_add(1);
        if let Some((mark, words)) = marked(line) {
            blocks.push(Block {
                line: number,
                mark,
                words,
                text: Vec::new(alloc),
            })?;
        } else if !line.is_empty() && !push_to_last(&mut blocks, line)? {
            return Ok(Err(number));
        }
    }
    Ok(Ok(blocks))
}
