// Prints what changed between two editions of a page, the files that the two arguments name: which text the part is of and which of its lines, then
// its bytes. A file that is refused, or cannot be opened or read, is one line that names it.
#![tactic(auto)]

use console::TooLong;
use editions::{Change, Which};
use std::io;
use walk::Limits;

// The most bytes of a page.
const MOST: u32 = 32768;

// One byte more than a page may have tells a page that is too long.
const ROOM: usize = 32769;

// A file by its name, and what it holds.
#[derive(Clone, Copy)]
struct Edition<'a> {
    name: &'a [u8],
    text: &'a [u8],
}

// What the editions are parsed and compared in: the events of either, and what the comparison takes.
#[derive(Drop)]
struct Rooms {
    older: [u32; 16384],
    newer: [u32; 16384],
    lines: [u32; 16384],
    events: [u32; 16384],
}

// The file of that name, where it can be opened and read; its end is where there is no room left.
fn open_and_read<'a>(
    rt: &HostRuntime,
    name: &[u8],
    text: &'a mut [u8; ROOM],
) -> io::Result<&'a [u8]> {
    let mut file = console::open(rt, name)?;
    Ok(console::read_full(&mut file, text)?)
}

// The file of that name; where it cannot be opened or read, a line on standard error and none.
fn load<'a>(
    rt: &HostRuntime,
    name: Result<&'a [u8], TooLong>,
    text: &'a mut [u8; ROOM],
) -> io::Result<Option<Edition<'a>>> {
    let Some(name) = name.ok().filter(|name| !name.is_empty()) else {
        rt.stderr()
            .write_all(b"changes: a name is empty or too long\n")?;
        return Ok(None);
    };
    match open_and_read(rt, name, text) {
        Ok(text) => Ok(Some(Edition { name, text })),
        Err(e) => {
            console::fail(rt, name, &e)?;
            Ok(None)
        }
    }
}

// The line of a refusal, as the listing has it, behind the name of its file.
fn print_refusal(rt: &impl Print, name: &[u8], number: u64, position: u64) -> io::Result<()> {
    rt.write_all(name)?;
    println!(rt; ": refused {number} at {position}")
}

// `, line 5` or `, lines 5 to 9`, counted from 1.
fn print_lines(rt: &impl Print, first: usize, last: usize) -> io::Result<()> {
    if first == last {
        print!(rt; ", line {first}")
    } else {
        print!(rt; ", lines {first} to {last}")
    }
}

// What the part is, the name of its file, its lines and its bytes, with a newline behind them where they end in none.
fn print_part(
    rt: &impl Print,
    what: &[u8],
    edition: Edition<'_>,
    start: usize,
    end: usize,
) -> io::Result<()> {
    if end <= start {
        return rt.write_all(b"nothing changed\n");
    }
    rt.write_all(what)?;
    rt.write_all(edition.name)?;
    let text = edition.text;
    let first = lines::count_lines(trim::part(text, 0, start + 1));
    let last = lines::count_lines(trim::part(text, 0, end));
    print_lines(rt, first, last)?;
    rt.write_all(b":\n")?;
    let part = trim::part(text, start, end);
    rt.write_all(part)?;
    if part.ends_with(b"\n") {
        return Ok(());
    }
    rt.write_all(b"\n")
}

// Parses both editions and compares them; what a parse refuses the comparison refuses, too.
fn compare(older: &[u8], newer: &[u8], rooms: &mut Rooms) -> Change {
    let lim = Limits {
        nesting: events::DEEPEST,
        sections: events::DEEPEST,
    };
    parse::parse_within(older, &mut rooms.lines, &mut rooms.older, MOST, lim);
    parse::parse_within(newer, &mut rooms.lines, &mut rooms.newer, MOST, lim);
    editions::compare_within(
        older,
        &rooms.older,
        newer,
        &rooms.newer,
        &mut rooms.lines,
        &mut rooms.events,
        MOST,
        lim,
    )
}

fn print_change(
    rt: &impl Print,
    older: Edition<'_>,
    newer: Edition<'_>,
    c: Change,
) -> io::Result<()> {
    let which = c.which;
    let (what, edition) = match which {
        Which::Older => (b"removed from ".as_slice(), older),
        Which::Newer => (b"new in ".as_slice(), newer),
    };
    if c.number != 0 {
        return print_refusal(rt, edition.name, c.number, c.position);
    }
    print_part(rt, what, edition, c.start as usize, c.end as usize)
}

// The two files of these names.
fn run(
    rt: &HostRuntime,
    old: Result<&[u8], TooLong>,
    new: Result<&[u8], TooLong>,
) -> io::Result<()> {
    let mut older = [0; ROOM];
    let Some(older) = load(rt, old, &mut older)? else {
        return Ok(());
    };
    let mut newer = [0; ROOM];
    let Some(newer) = load(rt, new, &mut newer)? else {
        return Ok(());
    };
    let mut rooms = Rooms {
        older: [0; 16384],
        newer: [0; 16384],
        lines: [0; 16384],
        events: [0; 16384],
    };
    let c = compare(older.text, newer.text, &mut rooms);
    print_change(rt, older, newer, c)
}

// The two names, or that there are no two.
fn main(rt: HostRuntime) -> io::Result<()> {
    let mut old = [0u8; 4096];
    let mut new = [0u8; 4096];
    let old = console::argument(&rt, 1, &mut old);
    let new = console::argument(&rt, 2, &mut new);
    let more = console::argument(&rt, 3, &mut []);
    match (old, new, more) {
        (Some(old), Some(new), None) => run(&rt, old, new),
        _ => rt
            .stderr()
            .write_all(b"name two editions of a page: changes OLD NEW\n"),
    }
}
