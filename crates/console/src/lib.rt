// What the programs share: where the page or stream comes from, reading, bytes sent out, and the line of a file that fails.
#![tactic(auto)]

ghost use Rattle.std.specs.Prelude.{◌≤◌, length, IfOk, IfSome};

use std::env::{Env, FillError};
use std::fs::File;
use std::io::{Cursor, Read, Stdin, Write};
use std::{fs, io, str};

// The errno of a name that is no text, which no file can be opened by.
const NO_TEXT: i32 = 84;

// What a page or stream is read from.
#[derive(Drop)]
pub enum Origin {
    Input(Stdin),
    Named(File),
}

impl Read for Origin {
    fn read(&mut self, buf: &mut [u8]) -> io::Result<usize> {
        match self {
            Origin::Input(stdin) => stdin.read(buf),
            Origin::Named(file) => file.read(buf),
        }
    }
}

// An argument that there is no room for.
#[derive(Clone, Copy, Debug, PartialEq, Eq)]
pub struct TooLong;

// An argument, in the front of `buf`; none where there is no such argument.
pub fn argument<'a>(rt: &impl Env, i: usize, buf: &'a mut [u8]) -> Option<Result<&'a [u8], TooLong>>
    ensures { IfSome result (λ r. IfOk r (λ s. length s.now ≤ length buf.old)) }
{
    match rt.arg(i, buf) {
        Ok(n) => Some(Ok(&buf[..n])),
        Err(FillError::TooLong) => Some(Err(TooLong)),
        Err(FillError::NotPresent) => None,
    }
}

// The file of that name, to be read.
pub fn open(rt: &HostRuntime, name: &[u8]) -> io::Result<File> {
    match str::from_utf8(name) {
        Ok(path) => fs::open(rt, path),
        Err(_) => Err(io::Error::from_raw_os_error(NO_TEXT)),
    }
}

// Standard input, or the file that the first argument names; where that cannot be opened, a line on standard error and nothing.
pub fn source(rt: &HostRuntime) -> io::Result<Option<Origin>> {
    let mut path = [0u8; 4096];
    let Some(argument) = argument(rt, 1, &mut path) else {
        return Ok(Some(Origin::Input(rt.stdin())));
    };
    // the empty name is no file's
    let name = argument.unwrap_or(b"");
    match open(rt, name) {
        Ok(file) => Ok(Some(Origin::Named(file))),
        Err(e) => {
            fail(rt, name, &e)?;
            Ok(None)
        }
    }
}

// Reads until buf is full or the input ends, and answers what it put at the start of buf.
pub fn read_full<'a>(from: &mut impl Read, buf: &'a mut [u8]) -> io::Result<&'a mut [u8]>
    ensures { IfOk result (λ s. length s.now ≤ length buf.old) }
{
    let mut done: usize = 0;
    // a step is as long as what one read gives
    while done < buf.len() {
        let n = from.read(&mut buf[done..])?;
        if n == 0 {
            break;
        }
        done += n;
    }
    Ok(&mut buf[..done])
}

// Writes the first `count` bytes; none where there are not so many.
pub fn send(to: &impl Print, bytes: &[u8], count: u64) -> io::Result<()> {
    to.write_all(bytes.get(..count as usize).unwrap_or(b""))
}

// Writes a line to standard error: what failed, as the caller names it, a colon and the error's text.
pub fn fail(rt: &HostRuntime, what: &[u8], e: &io::Error) -> io::Result<()> {
    let err = rt.stderr();
    err.write_all(what)?;
    err.write_all(b": ")?;
    let mut line = Cursor::new([0u8; 256]);
    write!(line, "{e}")?;
    let n = line.position() as usize;
    let text = line.into_inner();
    err.write_all(words_of(text.get(..n).unwrap_or(b"")))?;
    err.write_all(b"\n")
}

// The text of an error of the system's without its number, which stands behind it in parentheses.
fn words_of(text: &[u8]) -> &[u8] {
    let number = b" (os error ".as_slice();
    let end = text.windows(number.len()).position(|w| w == number);
    end.and_then(|i| text.get(..i)).unwrap_or(text)
}
