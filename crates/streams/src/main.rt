// Writes and reads record streams for the comparison with the judge: each frame (`frame::read_task`) has an operation and its
// payload: the room to lend (four bytes), then what is written (w), read (r) or damaged and read (d). A line of numbers for
// each, as `judge records` prints it. It stops at the end of input or at a frame that is cut short or too large.
#![tactic(auto)]

ghost use Rattle.std.specs.Prelude.{◌<◌, ◌≤◌, length};

use events::WIDTH;
use frame::Sum;
use print::Out;
use records::Done;
use refusals::Refused;
use std::io;

// The most bytes or words that are lent.
const ROOM: usize = 65536;

// The bytes of a frame: those of the room, and its payload.
const LOAD: usize = ROOM + 4;

// What each byte and each word holds before it is lent.
const BYTE: u8 = 7;

const WORD: u32 = 9;

// What is lent.
#[derive(Drop)]
struct Rooms {
    bytes: [u8; ROOM],
    words: [u32; ROOM],
}

// A refusal's number, or 0; where it stands, or what was taken; what was given.
fn numbers(r: Result<Done, Refused>) -> [u64; 3] {
    match r {
        Ok(done) => [0, done.taken as u64, done.given as u64],
        Err(e) => [u64::from(e.why), e.at, 0],
    }
}

// ---- w

// The words of four bytes each, as many as there is room for.
fn words_of<'w>(load: &[u8], words: &'w mut [u32]) -> &'w [u32]
    ensures { length result.now ≤ length words.old }
{
    let n = words.len().min(load.len() / 4);
    for (word, bytes) in words[..n].iter_mut().zip(load.chunks_exact(4)) {
        *word = frame::four(bytes, 0);
    }
    &words[..n]
}

// The stream's bytes, and a mark where a byte after them has changed.
fn written_out(out: &mut Out<'_, impl Print>, r: Result<Done, Refused>, bytes: &[u8]) {
    out.numbers(&numbers(r));
    let given = r.map_or(0, |done| done.given);
    let Some((stream, rest)) = bytes.split_at_checked(given) else {
        return frame::mark(out, false);
    };
    out.numbers(stream);
    frame::mark(out, rest.iter().all(|x| *x == BYTE));
}

fn written(out: &mut Out<'_, impl Print>, load: &[u8], words: &mut [u32], bytes: &mut [u8]) {
    bytes.fill(BYTE);
    let r = records::write(words_of(load, words), bytes);
    written_out(out, r, bytes);
}

// ---- r

// The events' words, and a mark where a word after them, or any after a refusal, is not as it must be.
fn read_out(out: &mut Out<'_, impl Print>, r: Result<Done, Refused>, words: &[u32]) {
    out.numbers(&numbers(r));
    let Ok(done) = r else {
        return frame::mark(out, words.iter().all(|x| *x == WORD));
    };
    if words.len() / WIDTH < done.given {
        return frame::mark(out, false);
    }
    let (events, rest) = words.split_at(done.given * WIDTH);
    out.numbers(events);
    frame::mark(out, rest.iter().all(|x| *x == 0));
}

fn taken(out: &mut Out<'_, impl Print>, bytes: &[u8], words: &mut [u32]) {
    words.fill(WORD);
    let r = records::read(bytes, words);
    read_out(out, r, words);
}

// ---- d

// The answer to a stream and every word that it leaves, taken together.
fn sum_read(bytes: &[u8], words: &mut [u32], before: Sum) -> Sum {
    words.fill(WORD);
    let [number, position, count] = numbers(records::read(bytes, words));
    before.add(number).add(position).add(count).all(words)
}

// All 256 values of the byte at a place.
fn sum_values(bytes: &mut [u8], place: usize, words: &mut [u32]) -> u64
    requires { place < length bytes.old }
{
    let kept = bytes[place];
    let mut sum = Sum::new();
    for v in 0..=u8::MAX {
        bytes[place] = v;
        sum = sum_read(bytes, words, sum);
    }
    bytes[place] = kept;
    sum.value()
}

// All fronts of a stream, itself the last.
fn sum_cuts(bytes: &[u8], words: &mut [u32]) -> u64 {
    let mut sum = Sum::new();
    for n in 0..=bytes.len() {
        sum = sum_read(&bytes[..n], words, sum);
    }
    sum.value()
}

// A number for each byte of the stream, and one for its cuts.
fn damaged(out: &mut Out<'_, impl Print>, bytes: &mut [u8], words: &mut [u32]) {
    for i in 0..bytes.len() {
        out.number(sum_values(bytes, i, words));
    }
    out.number(sum_cuts(bytes, words));
}

// ---- frames

// One frame's answer; none where its room does not come, or is too large.
fn answer(out: &mut Out<'_, impl Print>, op: u8, load: &mut [u8], rooms: &mut Rooms) -> Option<()> {
    let (head, load) = load.split_at_mut_checked(4)?;
    let room = frame::four(head, 0) as usize;
    if ROOM < room {
        return None;
    }
    let bytes = &mut rooms.bytes[..];
    let words = &mut rooms.words[..];
    match op {
        b'w' => written(out, load, words, &mut bytes[..room]),
        b'r' => taken(out, load, &mut words[..room]),
        _ => damaged(out, load, &mut words[..room]),
    }
    out.put(b"\n");
    Some(())
}

fn main(rt: HostRuntime) -> io::Result<()> {
    let mut held = [0u8; 65536];
    let mut out = Out::new(&rt, &mut held);
    let mut load = [0u8; LOAD];
    let mut rooms = Rooms {
        bytes: [0; ROOM],
        words: [0; ROOM],
    };
    frame::each_task(&rt, &mut load, |op, load| {
        answer(&mut out, op, load, &mut rooms)
    });
    out.finish()
}
