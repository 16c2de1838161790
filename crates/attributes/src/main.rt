// Prints what the attribute lines of a page hold, from standard input, or from the file that the first argument names: a line for each class, id and pair,
// in order, with its place in the page. Comments are left out.
#![tactic(auto)]

use events::{ATOM, ATTRIBUTES, WIDTH};
use lines::Span;
use print::Out;
use sets::{ELEMENT, Element, Elements, Kind, PIECE};
use std::io;
use walk::Limits;

// The fewest bytes that an element takes: an empty comment's.
const LEAST: usize = 2;

// An element for two bytes of a page, and on a line a piece for an element; and the words of so many.
const MOST: usize = 16384;

const ELEMENTS: usize = MOST * ELEMENT;

const PIECES: usize = MOST * PIECE;

// What a page is parsed in, and its sets are opened in.
#[derive(Drop)]
struct Rooms {
    lines: [u32; 16384],
    events: [u32; 16384],
    elements: [u64; ELEMENTS],
    pieces: [u64; PIECES],
}

// A set, and where it begins in the page.
#[derive(Clone, Copy)]
struct Set<'a> {
    bytes: &'a [u8],
    start: u32,
}

impl<'a> Set<'a> {
    // A place in the set, as one in the page.
    fn placed(self, at: u64) -> u64 {
        let start = u64::from(self.start);
        if (self.bytes.len() as u64) < at {
            return start;
        }
        start + at
    }

    fn part(self, at: Span<u64>) -> &'a [u8] {
        trim::part(self.bytes, at.start as usize, at.end as usize)
    }
}

// The line of a refusal, as the listing has it.
fn put_refused(out: &mut Out<'_, impl Print>, number: u64, position: u64) {
    out.put(b"refused ");
    out.number(number);
    out.put(b"at ");
    out.decimal(position);
    out.put(b"\n");
}

// The value whose pieces these are; on a line it has one, or none where it is empty.
fn value(pieces: &[u64], first: u64, past: u64) -> Option<Span<u64>> {
    if past <= first {
        return None;
    }
    let (spans, _) = pieces.as_chunks::<PIECE>();
    let [start, end] = *spans.get(first as usize)?;
    Some(Span { start, end })
}

// An element's line; none for a comment.
fn element_out(out: &mut Out<'_, impl Print>, set: Set<'_>, e: Element, value: Span<u64>) {
    match Kind::try_from(e.kind) {
        Ok(Kind::Class) => {
            out.put(b"class ");
            out.numbers(&[set.placed(value.start), set.placed(value.end)]);
        }
        Ok(Kind::Id) => {
            out.put(b"id ");
            out.numbers(&[set.placed(value.start), set.placed(value.end)]);
        }
        Ok(Kind::Pair) => {
            out.put(b"pair ");
            out.numbers(&[set.placed(e.key.start), set.placed(value.end)]);
            out.put(set.part(e.key));
            out.put(b"=");
        }
        _ => return,
    }
    out.put(set.part(value));
    out.put(b"\n");
}

// The lines of a set's elements.
fn elements_out(
    out: &mut Out<'_, impl Print>,
    set: Set<'_>,
    elements: Elements<'_>,
    pieces: &[u64],
) {
    for i in 0..elements.count {
        if let Some(e) = elements.get(i) {
            // an empty value stands behind the key
            let none = Span {
                start: e.key.end,
                end: e.key.end,
            };
            let value = value(pieces, e.first, e.past).unwrap_or(none);
            element_out(out, set, e, value);
        }
    }
}

// The lines of a set, in no more words than a set of its length can need: all are cleared.
fn set_out(
    out: &mut Out<'_, impl Print>,
    set: Set<'_>,
    elements: &mut [u64; ELEMENTS],
    pieces: &mut [u64; PIECES],
) {
    let most = (set.bytes.len() / LEAST).min(MOST);
    let elements = &mut elements[..most * ELEMENT];
    let pieces = &mut pieces[..most * PIECE];
    match sets::read(set.bytes, elements, pieces) {
        Ok(o) => {
            let read = Elements {
                words: elements,
                count: o.count as usize,
            };
            elements_out(out, set, read, pieces);
        }
        Err(r) => put_refused(out, r.why.into(), set.placed(r.at)),
    }
}

// A page's lines, or its refusal.
fn page_out(out: &mut Out<'_, impl Print>, text: &[u8], rooms: &mut Rooms) {
    let lim = Limits {
        nesting: events::DEEPEST,
        sections: events::DEEPEST,
    };
    let a = parse::parse_within(text, &mut rooms.lines, &mut rooms.events, 32768, lim);
    if a.number != 0 {
        return put_refused(out, a.number, a.position);
    }
    for event in rooms.events.chunks_exact(WIDTH) {
        if let [ATOM, ATTRIBUTES, start, end, ..] = *event {
            let bytes = trim::part(text, start as usize, end as usize);
            set_out(
                out,
                Set { bytes, start },
                &mut rooms.elements,
                &mut rooms.pieces,
            );
        }
    }
}

fn main(rt: HostRuntime) -> io::Result<()> {
    let Some(mut from) = console::source(&rt)? else {
        return Ok(());
    };
    // one byte more than a page may have tells a page that is too long
    let mut text = [0u8; 32769];
    let text = console::read_full(&mut from, &mut text)?;
    let mut rooms = Rooms {
        lines: [0; 16384],
        events: [0; 16384],
        elements: [0; ELEMENTS],
        pieces: [0; PIECES],
    };
    let mut held = [0u8; 65536];
    let mut out = Out::new(&rt, &mut held);
    page_out(&mut out, text, &mut rooms);
    out.finish()
}
