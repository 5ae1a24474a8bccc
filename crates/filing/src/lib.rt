//! What the programs share: their arguments, files that are read, and one that is made, under a name of its own, which takes its place whole, or
//! nothing is changed; lines printed, and complaints. What is read and what is written can't be stated with the library (docs/DECISIONS.md 5.5): of
//! the name under which a file is made there is a contract, of what is read a bound, the rest is run and compared.
#![tactic(auto)]

mod arguments;

ghost use Rattle.std.specs.Prelude.{◌≤◌, length};
ghost use Rattle.io.specs.Counts.{IsPrefixLen};
ghost use Rattle.text.specs.Written.{HasRoom, Adds};
ghost use Rattle.filing.specs.Names.{most_name, most_part_name, part_name};

pub use arguments::Argument;
use std::env::FillError;
use std::fs::{OpenFile, OpenOptions};
use std::io::{Cursor, Read, Write};
use std::rt::{Env, Files};
use std::str::from_utf8;
use std::{fs, io};
use text::Page;

/// The bytes of the longest name that an argument can be.
pub const MOST_NAME: usize = 4096;

// Room for a name of so many bytes with `.part` behind it.
const MOST_PART_NAME: usize = MOST_NAME + 5;

/// The file of this name, open to be read. One that can't be opened is none; so is one whose name isn't UTF-8, since the library takes text for a path.
pub fn open_read<R: Files>(rt: &R, name: &[u8]) -> Option<R::File> {
    let path = from_utf8(name).ok()?;
    fs::open(rt, path).ok()
}

// The same as `read_full`, of a file that is there.
fn read_into<F: Read>(file: &mut F, buf: &mut [u8]) -> usize
    ensures { IsPrefixLen result buf.new }
{
    let mut done = 0;
    while done < buf.len() {
        match file.read(&mut buf[done..]) {
            Ok(0) | Err(_) => break,
            Ok(n) => done += n,
        }
    }
    done
}

/// Reads until `buf` is full, the file ends or a read fails: how many bytes stand at the start of `buf`, none of a file that is none.
pub fn read_full<F: Read>(file: &mut Option<F>, buf: &mut [u8]) -> usize
    ensures { IsPrefixLen result buf.new }
{
    match file {
        Some(f) => read_into(f, buf),
        None => 0,
    }
}

// Whether nothing stands behind what was read; where the read fails, that isn't known.
fn is_at_end<F: Read>(file: &mut F) -> bool {
    matches!(file.read(&mut [0u8; 1]), Ok(0))
}

/// Whether a file was read to its end, or as far as there is room for it; one that can't be opened or read (a folder, say) is none, and not an empty one.
pub fn is_read<F: Read>(file: &mut Option<F>, count: usize, room: usize) -> bool {
    match file {
        Some(f) => count == room || is_at_end(f),
        None => false,
    }
}

// What failed and why, on standard error: in the system's words, without the number that the library puts behind them.
fn fail<R: Eprint>(rt: &R, what: &str, error: &io::Error) {
    let mut words = Cursor::new([0u8; 256]);
    let _ = write!(words, "{error}");
    let bytes = words.into_inner();
    let text = from_utf8(&bytes).unwrap_or("");
    let why = match text.split_once(" (os error ") {
        Some((why, _)) => why,
        None => text.trim_end_matches('\0'),
    };
    let _ = eprintln!(rt; "{what}: {why}");
}

// Written whole, and on its device.
fn put_whole<F: Write + OpenFile>(file: &mut F, bytes: &[u8]) -> io::Result<()> {
    file.write_all(bytes)?;
    file.sync_all()
}

// The name under which a file is made.
fn put_part_name(page: &mut Page, name: &[u8])
    requires name_len_bound { length name.now ≤ most_name }
    requires room { HasRoom most_part_name page.old }
    ensures { Adds most_part_name page.old (part_name name.now) page.new }
{
    page.put_text(name);
    page.put_text(b".part");
}

// What came of it; where it failed, standard error says what and why.
fn heard<R: Eprint, T>(rt: &R, what: &str, outcome: io::Result<T>) -> Option<T> {
    match outcome {
        Ok(value) => Some(value),
        Err(error) => {
            fail(rt, what, &error);
            None
        }
    }
}

// The names are text here, as the library asks. A file that is not written whole or can't take its name goes again, after standard error says so.
fn make_at<R: Files + Eprint>(rt: &R, part: &str, name: &str, bytes: &[u8]) -> bool {
    let opened = OpenOptions::new()
        .write(true)
        .create_new(true)
        .open(rt, part);
    let Some(mut file) = heard(rt, part, opened) else {
        return false;
    };
    let written = heard(rt, part, put_whole(&mut file, bytes));
    drop(file);
    let made = written.is_some() && heard(rt, name, fs::rename(rt, part, name)).is_some();
    if !made {
        let _ = fs::remove_file(rt, part);
    }
    made
}

/// A file of this name with these bytes, also with none, in the place of one that is there; whether it could be made. Where it couldn't, standard error
/// says why, and what stood there stands.
pub fn make_file<R: Files + Eprint>(rt: &R, name: &[u8], bytes: &[u8]) -> bool
    requires { length name.now ≤ most_name }
{
    let mut room = [0; MOST_PART_NAME];
    let mut page = Page::new(&mut room);
    put_part_name(&mut page, name);
    match (from_utf8(page.text()), from_utf8(name)) {
        (Ok(part), Ok(name)) => make_at(rt, part, name, bytes),
        _ => {
            let _ = eprintln!(rt; "{}: a name that is not UTF-8", name.escape_ascii());
            false
        }
    }
}

/// Argument `i` of the program at the start of `buf`: how long it is, 0 where there is none or it is longer than `buf`. Argument 0 is the program's own
/// name.
pub fn argument<R: Env>(rt: &R, i: usize, buf: &mut [u8]) -> usize
    ensures { IsPrefixLen result buf.new }
{
    rt.arg(i, buf).unwrap_or(0)
}

// Whether the program was started with an argument i, however long.
fn is_argument<R: Env>(rt: &R, i: usize) -> bool {
    !matches!(rt.arg(i, &mut [0u8; 1]), Err(FillError::NotPresent))
}

/// How many arguments the program was started with, its own name among them.
pub fn argument_count<R: Env>(rt: &R) -> usize {
    for i in 0..usize::MAX {
        if !is_argument(rt, i) {
            return i;
        }
    }
    usize::MAX
}

/// Lines on standard output; where that fails, standard error says so.
pub fn print_lines<R: Print + Eprint>(rt: &R, lines: &[u8]) {
    if let Err(error) = Print::write_all(rt, lines) {
        fail(rt, "standard output", &error);
    }
}

/// For each two arguments of the program: the first as a line, and then what is done with the two.
pub fn for_each_pair<R: Env + Print, F: Fn(&[u8], &[u8])>(rt: &R, work: F)
    requires { F.IsAlwaysCallable work }
{
    for k in 0..argument_count(rt) / 2 {
        let first = Argument::new(rt, 2 * k + 1);
        let second = Argument::new(rt, 2 * k + 2);
        let _ = rt.write_all(first.bytes());
        let _ = rt.write_all(b"\n");
        work(first.bytes(), second.bytes());
    }
}
