// Compiles the equations on standard input (their first 8,193 bytes, so that a longer text is noticed) for the K of the first argument, and lists the
// LUTs of the gate table, or says what the text is refused for. The table's bytes go to the file that a second argument names.
#![tactic(auto)]

use compiling::TABLE_ROOM;
use listing::TEXT_ROOM;
use std::env::FillError;
use std::io::{Cursor, ErrorKind, Write};
use std::rt::{Env, Files};
use std::{fs, io, str};

// One more than the longest text has.
const TEXT_READ: usize = 8193;

// K is one digit: the second byte shows a word that is longer.
const WORD_ROOM: usize = 2;

// One more than the longest path has.
const PATH_ROOM: usize = 4096;

// Room for std's words of the system's errors.
const ERROR_ROOM: usize = 256;

// A missing argument is no digit, nor is one of more than two bytes.
fn asked_k(arguments: &impl Env) -> u64 {
    let mut word = [0u8; WORD_ROOM];
    let n = arguments.arg(1, &mut word).unwrap_or(0);
    telling::digit(&word[..n])
}

// What std says of an error, without the number that it puts behind the system's words.
fn words_of<'a>(error: &io::Error, room: &'a mut [u8]) -> &'a str {
    let mut written = Cursor::new(&mut *room);
    let _ = write!(written, "{error}");
    let length = (written.position() as usize).min(room.len());
    let words = str::from_utf8(&room[..length]).unwrap_or("");
    words.split(" (os error ").next().unwrap_or("")
}

// Writes a line to standard error: what failed, a colon and why.
fn fail(errors: &impl Print, what: &[u8], error: &io::Error) -> io::Result<()> {
    let mut room = [0u8; ERROR_ROOM];
    errors.write_all(what)?;
    errors.print(": ")?;
    errors.println(words_of(error, &mut room))
}

fn write_table(files: &impl Files, path: &[u8], table: &[u8]) -> io::Result<()> {
    // std has no path that is no text
    let path = str::from_utf8(path).map_err(|_| io::Error::from(ErrorKind::InvalidFilename))?;
    fs::write(files, path, table)
}

fn save(files: &impl Files, errors: &impl Print, path: &[u8], table: &[u8]) -> io::Result<()> {
    write_table(files, path, table).or_else(|error| fail(errors, path, &error))
}

// A missing second argument asks for no file; one that is too long for a path is told as such.
fn save_if_asked<R: Env + Files>(rt: &R, errors: &impl Print, table: &[u8]) -> io::Result<()> {
    let mut path = [0u8; PATH_ROOM];
    match rt.arg(2, &mut path) {
        Ok(n) => save(rt, errors, &path[..n], table),
        Err(FillError::NotPresent) => Ok(()),
        Err(FillError::TooLong) => errors.println("file: File name too long"),
    }
}

// The table is saved even where its listing cannot be written.
fn show<R: Env + Files + Print>(
    rt: &R,
    errors: &impl Print,
    text: &[u8],
    k: u64,
) -> io::Result<()> {
    let mut table = [0u8; TABLE_ROOM];
    let mut lines = [0u8; TEXT_ROOM];
    let lengths = telling::tell(text, k, &mut table, &mut lines);
    let made = lengths.table;
    let length = lengths.lines;
    let shown = rt.write_all(&lines[..length]);
    if made > 0 {
        save_if_asked(rt, errors, &table[..made])?;
    }
    shown
}

// A read that fails ends the text, as the input's end does.
fn main(rt: HostRuntime) -> io::Result<()> {
    let mut text = [0u8; TEXT_READ];
    let (n, _) = reading::fill(&mut rt.stdin(), &mut text);
    show(&rt, &rt.stderr(), &text[..n], asked_k(&rt))
}
