// Opens sets of attributes for the comparison with the judge. Each frame (`frame::read_task`) has an operation (r for `read`, v for `value`, p for
// `pairs`, j for `join`, else `text`) and seven numbers of two bytes: the words to lend for elements, pieces, places and spare, the bytes to lend (at most
// 1,024 are), the place of an element, and the key's length; then the key, then the set. A line of numbers for each, as `judge sets` prints it: the answer,
// and all that was lent. It stops at the end of input or at a frame that is cut short or too large.
#![tactic(auto)]

ghost use Rattle.std.specs.Prelude.{◌≤◌};

use print::Out;
use refusals::Refused;
use sets::Opened;
use std::io;

// The bytes of the seven numbers.
const HEAD: usize = 14;

// The most that is lent of each.
const ROOM: usize = 1024;

// What is lent.
#[derive(Drop)]
struct Lent<'a> {
    elements: &'a mut [u64],
    pieces: &'a mut [u64],
    places: &'a mut [u64],
    spare: &'a mut [u64],
    bytes: &'a mut [u8],
}

// What is asked of a set.
#[derive(Clone, Copy)]
struct Asked<'a> {
    op: u8,
    set: &'a [u8],
    key: &'a [u8],
    place: usize,
}

// The most that is lent by the number at a place of the head.
fn room(head: &[u8], at: usize) -> usize
    ensures { result ≤ 1024 }
{
    usize::from(frame::two(head, at)).min(ROOM)
}

fn ask(asked: Asked<'_>, lent: &mut Lent<'_>) -> Result<Opened, Refused> {
    let Asked {
        op,
        set,
        key,
        place,
    } = asked;
    match op {
        b'r' => sets::read(set, lent.elements, lent.pieces),
        b'v' => values::value(set, key, lent.elements, lent.pieces),
        b'p' => pairs::pairs(set, lent.elements, lent.pieces, lent.places, lent.spare),
        b'j' => joins::join(set, key, lent.elements, lent.pieces, lent.bytes),
        _ => joins::text(set, place, lent.elements, lent.pieces, lent.bytes),
    }
}

// The answer, and all that was lent.
fn opened_out(out: &mut Out<'_, impl Print>, found: Result<Opened, Refused>, lent: &Lent<'_>) {
    out.numbers(&match found {
        Ok(o) => [0, o.position, o.count],
        Err(r) => [r.why.into(), r.at, 0],
    });
    out.numbers(lent.elements);
    out.numbers(lent.pieces);
    out.numbers(lent.places);
    out.numbers(lent.spare);
    out.numbers(lent.bytes);
    out.put(b"\n");
}

// One frame's answer; none where it is cut short. Words hold 9 before they are lent, bytes 7.
fn answer(out: &mut Out<'_, impl Print>, op: u8, load: &[u8]) -> Option<()> {
    let (head, rest) = load.split_at_checked(HEAD)?;
    let (key, set) = rest.split_at_checked(usize::from(frame::two(head, 12)))?;
    let mut elements = [9u64; ROOM];
    let mut pieces = [9u64; ROOM];
    let mut places = [9u64; ROOM];
    let mut spare = [9u64; ROOM];
    let mut bytes = [7u8; ROOM];
    let mut lent = Lent {
        elements: &mut elements[..room(head, 0)],
        pieces: &mut pieces[..room(head, 2)],
        places: &mut places[..room(head, 4)],
        spare: &mut spare[..room(head, 6)],
        bytes: &mut bytes[..room(head, 8)],
    };
    let asked = Asked {
        op,
        set,
        key,
        place: usize::from(frame::two(head, 10)),
    };
    let found = ask(asked, &mut lent);
    opened_out(out, found, &lent);
    Some(())
}

fn main(rt: HostRuntime) -> io::Result<()> {
    let mut held = [0u8; 4096];
    let mut out = Out::new(&rt, &mut held);
    let mut load = [0u8; 4096];
    frame::each_task(&rt, &mut load, |op, load| answer(&mut out, op, load));
    out.finish()
}
