// Prints the listing of a page (RULES V4, V9): from standard input, or from the file that the first argument names. Blank lines are listed only where
// the first line is `full`, which is no part of the page.
#![tactic(auto)]

use std::io;
use walk::Limits;

// What a page is parsed and listed in.
#[derive(Drop)]
struct Rooms {
    lines: [u32; 16384],
    events: [u32; 16384],
    // 2,048 lines of at most 55 bytes, and the last one
    out: [u8; 114688],
}

// Prints the listing, or the refusal that it met.
fn print_page(rt: &impl Print, mode: u64, text: &[u8], rooms: &mut Rooms) -> io::Result<()> {
    let lim = Limits {
        nesting: events::DEEPEST,
        sections: events::DEEPEST,
    };
    let a = parse::parse_within(text, &mut rooms.lines, &mut rooms.events, 32768, lim);
    let events = &rooms.events;
    let out = &mut rooms.out;
    let listed = match listing::page(mode, a.number, a.position, a.looks, events, out) {
        Err(e) => listing::page(mode, u64::from(e.why), e.at, 0, events, out),
        listed => listed,
    };
    let size = listed.map_or(0, |done| done.given);
    console::send(rt, &rooms.out, size as u64)
}

fn main(rt: HostRuntime) -> io::Result<()> {
    let Some(mut from) = console::source(&rt)? else {
        return Ok(());
    };
    // one byte more than a page may have tells a page that is too long; five more are the first line that asks for the full listing
    let mut file = [0u8; 32774];
    let file = console::read_full(&mut from, &mut file)?;
    let mut rooms = Rooms {
        lines: [0; 16384],
        events: [0; 16384],
        out: [0; 114688],
    };
    print_page(&rt, heads::mode_of(file), heads::text_of(file), &mut rooms)
}
