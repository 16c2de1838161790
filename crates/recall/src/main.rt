// Prints the listing of a record stream (RULES V5): from standard input, or from the file that the first argument names. A stream does not
// say the parse's looks, so the listing ends with the events. Blank lines are listed only where a line `full` stands before the
// stream, which is no part of it: no stream begins with its first byte.
#![tactic(auto)]

use std::io;

// What a stream is read and listed in.
#[derive(Drop)]
struct Rooms {
    events: [u32; 16384],
    out: [u8; 114688],
}

// Prints the lines of the events, or the refusal that the stream met.
fn print_stream(rt: &impl Print, mode: u64, bytes: &[u8], rooms: &mut Rooms) -> io::Result<()> {
    let listed = match records::read(bytes, &mut rooms.events) {
        Ok(_) => listing::list(mode, &rooms.events, &mut rooms.out),
        Err(e) => Err(e),
    };
    let listed = match listed {
        Err(e) => listing::page(
            mode,
            u64::from(e.why),
            e.at,
            0,
            &rooms.events,
            &mut rooms.out,
        ),
        listed => listed,
    };
    let size = listed.map_or(0, |done| done.given);
    console::send(rt, &rooms.out, size as u64)
}

fn main(rt: HostRuntime) -> io::Result<()> {
    let Some(mut from) = console::source(&rt)? else {
        return Ok(());
    };
    // 2,049 records of at most 17 bytes: one event more than there is room for; and the first line that asks for the full listing
    let mut file = [0u8; 34838];
    let file = console::read_full(&mut from, &mut file)?;
    let mut rooms = Rooms {
        events: [0; 16384],
        out: [0; 114688],
    };
    print_stream(&rt, heads::mode_of(file), heads::text_of(file), &mut rooms)
}
