// Turns a page into its record stream (RULES N4, V9): from standard input, or from the file that the first argument names, to standard output.
// A refusal goes to standard error, so that what is stored is a stream or nothing.
#![tactic(auto)]

use listing::SHORT;
use std::io;
use walk::Limits;

// What a page is parsed and stored in.
#[derive(Drop)]
struct Rooms {
    lines: [u32; 16384],
    events: [u32; 16384],
    // 2,048 records of at most 17 bytes
    out: [u8; 34816],
}

fn print_refusal(
    err: &impl Print,
    number: u64,
    position: u64,
    rooms: &mut Rooms,
) -> io::Result<()> {
    let listed = listing::page(SHORT, number, position, 0, &rooms.events, &mut rooms.out);
    let size = listed.map_or(0, |done| done.given);
    console::send(err, &rooms.out, size as u64)
}

fn print_stream(rt: &HostRuntime, text: &[u8], rooms: &mut Rooms) -> io::Result<()> {
    let lim = Limits {
        nesting: events::DEEPEST,
        sections: events::DEEPEST,
    };
    let a = parse::parse_within(text, &mut rooms.lines, &mut rooms.events, 32768, lim);
    if a.number != 0 {
        return print_refusal(&rt.stderr(), a.number, a.position, rooms);
    }
    match records::write(&rooms.events, &mut rooms.out) {
        Ok(done) => console::send(rt, &rooms.out, done.given as u64),
        Err(e) => print_refusal(&rt.stderr(), u64::from(e.why), e.at, rooms),
    }
}

fn main(rt: HostRuntime) -> io::Result<()> {
    let Some(mut from) = console::source(&rt)? else {
        return Ok(());
    };
    // one byte more than a page may have tells a page that is too long
    let mut text = [0u8; 32769];
    let text = console::read_full(&mut from, &mut text)?;
    let mut rooms = Rooms {
        lines: [0; 16384],
        events: [0; 16384],
        out: [0; 34816],
    };
    print_stream(&rt, text, &mut rooms)
}
