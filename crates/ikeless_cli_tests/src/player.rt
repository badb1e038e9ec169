// Makes a script and its transcript of a row.
use crate::rows::{Row, SHORT};
use ikl_base::NoMemory;
use line_words::{parts, put, put_octet};
use std::alloc::Global;

/// A script and the transcript that is wanted of it.
#[derive(Drop)]
pub struct Played {
    pub script: Vec<u8>,
    pub transcript: Vec<u8>,
}

// What a word stands for.
fn whole<'a>(word: &'a [u8]) -> &'a [u8] {
    for (short, text) in SHORT {
        if short.as_bytes() == word {
            return text.as_bytes();
        }
    }
    word
}

// A line with its LF, its words written whole.
fn put_line(alloc: Global, out: &mut Vec<u8>, words: &[&[u8]]) -> Result<(), NoMemory> {
    for i in 0..words.len() {
        if i > 0 {
            put_octet(out, b' ')?;
        }
        put(out, whole(words[i]))?;
    }
    put_octet(out, b'\n')
}

// A line of a row: behind `> ` one of the script, else one of the transcript.
fn put_row_line(alloc: Global, played: &mut Played, line: &[u8]) -> Result<(), NoMemory> {
    let words = parts(alloc, line, b' ')?;
    match words.as_slice() {
        [first, rest @ ..] if *first == b">".as_slice() => {
            put_line(alloc, &mut played.script, rest)
        }
        all => put_line(alloc, &mut played.transcript, all),
    }
}

// A part of a row.
fn put_part(alloc: Global, played: &mut Played, part: &str) -> Result<(), NoMemory> {
    for line in part.as_bytes().split(|c| *c == b'\n') {
        put_row_line(alloc, played, line)?;
    }
    Ok(())
}

/// The script and the transcript of a row.
pub fn play(alloc: Global, row: &Row) -> Result<Played, NoMemory> {
    let mut played = Played {
        script: Vec::new(alloc),
        transcript: Vec::new(alloc),
    };
    put(&mut played.script, row.header.as_bytes())?;
    put_octet(&mut played.script, b'\n')?;
    for part in row.parts {
        put_part(alloc, &mut played, part)?;
    }
    Ok(played)
}
