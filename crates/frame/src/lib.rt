// What the programs over frames share: frames read from standard input or another reader, their numbers, a mark where something is
// not as it must be, and many numbers taken together in one.
#![tactic(auto)]

ghost use Rattle.std.specs.Prelude.{◌≡◌, ℕ, ◌+◌, ◌*◌, ◌%◌, ◌<◌, ◌≤◌, drop, get_or, length, IfSome};

use print::Out;
use std::io::Read;

// The most line words and event words that a frame lends.
pub const LINES: usize = 16384;

pub const EVENTS: usize = 65536;

// What stands from a place on.
fn behind(s: &[u8], at: usize) -> &[u8]
    ensures { result.now ≡ drop at s.now }
{
    s.get(at..).unwrap_or(b"")
}

// The number in the two bytes at a place, the lower first; a byte that is not there is 0.
pub fn two(s: &[u8], at: usize) -> u16
    ensures { let rest = drop at s.now in result ≡ get_or rest 0 0 + get_or rest 1 0 * 256 }
{
    let rest = behind(s, at);
    u16::from_le_bytes([classes::byte_at(rest, 0), classes::byte_at(rest, 1)])
}

// The same of four bytes.
pub fn four(s: &[u8], at: usize) -> u32
    ensures { let rest = drop at s.now in result ≡ get_or rest 0 0 + get_or rest 1 0 * 256 + get_or rest 2 0 * 65536 + get_or rest 3 0 * 16777216 }
{
    let rest = behind(s, at);
    u32::from_le_bytes([
        classes::byte_at(rest, 0),
        classes::byte_at(rest, 1),
        classes::byte_at(rest, 2),
        classes::byte_at(rest, 3),
    ])
}

// Fills `bytes`, and answers whether so many came. A read that fails is the end of the input.
fn came_whole(from: &mut impl Read, bytes: &mut [u8]) -> bool {
    let n = bytes.len();
    console::read_full(from, bytes).is_ok_and(|read| read.len() == n)
}

// ---- a frame with an operation: its letter, a length in four bytes, and so many bytes

#[derive(Clone, Copy)]
pub struct Task {
    pub op: u8,
    pub size: usize,
}

// Reads the next frame, its bytes into the front of `load`; none where it does not come whole or does not fit.
pub fn read_task(from: &mut impl Read, load: &mut [u8]) -> Option<Task>
    ensures { IfSome result (λ t. t.size ≤ length load.new) }
{
    let mut head = [0u8; 5];
    if !came_whole(from, &mut head) {
        return None;
    }
    let size = four(&head, 1) as usize;
    if !came_whole(from, load.get_mut(..size)?) {
        return None;
    }
    Some(Task { op: head[0], size })
}

// Reads frame after frame, at most a billion so that it ends, and stops where one does not come or where `answer` does.
pub fn each_task<F: FnMut(u8, &mut [u8]) -> Option<()>>(
    rt: &impl Input,
    room: &mut [u8],
    mut answer: F,
)
    requires { F.IsAlwaysCallable answer }
{
    let mut from = rt.reader();
    for _ in 0..1_000_000_000 {
        let Some(Task { op, size }) = read_task(&mut from, room) else {
            return;
        };
        if answer(op, &mut room[..size]).is_none() {
            return;
        }
    }
}

// ---- a frame with a text: its length, the line words and the event words to lend (four bytes each), the limits of nesting and
// sections (one byte each), and the text

#[derive(Clone, Copy)]
pub struct Page<'a> {
    pub text: &'a [u8],
    pub lines: usize,
    pub events: usize,
    pub nesting: usize,
    pub sections: usize,
    pub ghost lines_bound: { lines ≤ 16384 },
    pub ghost events_bound: { events ≤ 65536 },
}

// Reads the next frame, its text into the front of `text`; none where it does not come whole or does not fit.
pub fn read_page<'a>(from: &mut impl Read, text: &'a mut [u8]) -> Option<Page<'a>> {
    let mut head = [0u8; 14];
    if !came_whole(from, &mut head) {
        return None;
    }
    let size = four(&head, 0) as usize;
    let lines = four(&head, 4) as usize;
    let events = four(&head, 8) as usize;
    let text = text.get_mut(..size)?;
    if LINES < lines || EVENTS < events || !came_whole(from, text) {
        return None;
    }
    Some(Page {
        text,
        lines,
        events,
        nesting: usize::from(head[12]),
        sections: usize::from(head[13]),
    })
}

// Reads page after page likewise.
pub fn each_page<F: FnMut(Page<'_>)>(rt: &impl Input, room: &mut [u8], mut answer: F)
    requires { F.IsAlwaysCallable answer }
{
    let mut from = rt.reader();
    for _ in 0..1_000_000_000 {
        let Some(page) = read_page(&mut from, room) else {
            return;
        };
        answer(page);
    }
}

// ---- sums and marks

// Many numbers taken together in one, that can tell two lists apart.
#[derive(Clone, Copy)]
pub struct Sum {
    sum: u64,
    ghost small: { sum < 1000003 },
}

impl Sum {
    pub fn new() -> Self
        ensures { result.sum ≡ 0 }
    {
        Sum { sum: 0 }
    }

    // With a number behind those before.
    pub fn add(self, x: u64) -> Self
        ensures { result.sum ≡ (self.sum * 31 + x % 1000003) % 1000003 }
    {
        Sum {
            sum: (self.sum * 31 + x % 1000003) % 1000003,
        }
    }

    // With each of them.
    pub fn all<T: Copy + Into<u64>>(self, xs: &[T]) -> Self {
        xs.iter().fold(self, |sum, x| sum.add((*x).into()))
    }

    pub fn value(self) -> u64
        ensures { result ≡ self.sum }
    {
        self.sum
    }
}

// A mark where something is not as the rules say.
pub fn mark(out: &mut Out<'_, impl Print>, good: bool) {
    if !good {
        out.put(b"!");
    }
}
