// The top-level blocks of a text, found in its events: where the event starts that begins each, and where its first line does (RULES Z1).
#![tactic(auto)]

ghost use Rattle.std.specs.Prelude.{◌≡◌, ◌<◌, length, set};
ghost use Rattle.events.specs.Pack.{all_of};
ghost use Rattle.tops.specs.Tops.{is_around, open_of, begins_of, line_start};
ghost use Rattle.tops.specs.Places.{walk_of, kept_of, places_of, put_in, start_behind};

use classes;
use events::{ATOM, DOCUMENT, ENTER, EXIT, Event, SECTION};
use trim;

// How many nodes other than Document and Sections are open, and how many blocks have begun.
#[derive(Clone, Copy, PartialEq, Eq, Debug)]
pub struct Walk {
    pub nodes: usize,
    pub blocks: usize,
}

// The two nodes that may stand around a top-level block.
fn is_around(node: u32) -> bool
    ensures { result ≡ is_around node }
{
    matches!(node, DOCUMENT | SECTION)
}

// How many such nodes are open after an event, n before it.
fn open_after(n: usize, x: Event) -> usize
    requires { n < 9223372036854775808 }
    ensures { result ≡ open_of n x }
{
    match x.role {
        _ if is_around(x.node) => n,
        ENTER => n + 1,
        EXIT => n.saturating_sub(1),
        _ => n,
    }
}

// Whether an event begins a block, n such nodes being open before it.
fn begins(n: usize, x: Event) -> bool
    ensures { result ≡ begins_of n x }
{
    n == 0 && (x.role == ATOM || (x.role == ENTER && !is_around(x.node)))
}

// A place kept at index k, if there is room.
fn keep(out: &mut [u32], k: usize, place: u32)
    ensures { out.new ≡ set out.old k place }
{
    // `get_mut` leaves a goal that was not proved
    if k < out.len() {
        out[k] = place;
    }
}

// One event more: where it starts is kept, if it begins a block.
pub fn note(w: Walk, x: Event, out: &mut [u32]) -> Walk
    requires { (w.nodes < 9223372036854775808) × (w.blocks < 9223372036854775808) }
    ensures { (result ≡ walk_of w x) × (out.new ≡ kept_of w x out.old) }
{
    let nodes = open_after(w.nodes, x);
    if !begins(w.nodes, x) {
        return Walk { nodes, ..w };
    }
    keep(out, w.blocks, x.start);
    Walk {
        nodes,
        blocks: w.blocks + 1,
    }
}

// Stores where the events start that begin blocks, as far as there is room, and answers how many there are.
pub fn places(words: &[u32], out: &mut [u32]) -> usize
    ensures { (result ≡ length (places_of (all_of words.now))) × (out.new ≡ put_in 0 (places_of (all_of words.now)) out.old) }
{
    let mut w = Walk {
        nodes: 0,
        blocks: 0,
    };
    for (_, x) in events::in_turn(words) {
        w = note(w, x, out);
    }
    w.blocks
}

// Where the line of place p starts.
fn line_start(text: &[u8], p: usize) -> usize
    ensures { result ≡ line_start text.now p }
{
    match classes::rfind(trim::part(text, 0, p), |b| b == b'\n') {
        Some(newline) => newline + 1,
        None => 0,
    }
}

// Where the first line of block k starts, of the blocks that begin at these places; or the text's length.
pub fn start_of(text: &[u8], places: &[u32], k: usize) -> usize
    ensures { result ≡ start_behind text.now places.now k }
{
    match places.get(k) {
        Some(place) => line_start(text, *place as usize),
        None => text.len(),
    }
}
