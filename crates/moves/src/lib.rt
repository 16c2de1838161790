// Moves of events: finding, shifting, and the Exits of sections put in before a run of attributes (RULES U3, U4, S3, S4).
#![tactic(auto)]

ghost use Rattle.std.specs.Prelude.{◌≡◌, true, List, ◌++◌, ℕ, ◌+◌, ◌-◌, ◌*◌, ◌≤◌, ◌<◌, length, take, drop, get_or};
ghost use Rattle.std.proofs.Math.Seq.{paste};
ghost use Rattle.events.specs.Events.{width};
ghost use Rattle.events.specs.View.{view, Same};
ghost use Rattle.moves.specs.Moves.{is_at, find_of, other_of, shift_of, all_before, exits_of, sections_of};

use events::{St, WIDTH};

// Whether the event at word i has this role and node.
pub fn is_at(events: &[u32], i: usize, role: u32, node: u32) -> bool
    requires { i + 1 < length events.now }
    ensures { result ≡ is_at events.now i role node }
{
    if events[i] != role {
        return false;
    }
    events[i + events::NODE] == node
}

// The first event of that role and node from word i on, or where the events end.
pub fn find(events: &[u32], st: St, role: u32, node: u32, i: usize) -> usize
    requires { (i ≤ st.words) × (st.words ≤ length events.now) }
    ensures { ((k l v : List ℕ) → result ≡ find_of role node i (view st events.now k l v)) × (i ≤ result) × (result ≤ st.words) }
{
    let w = st.words;
    let mut j = i;
    while WIDTH <= w - j {
        if is_at(events, j, role, node) {
            return j;
        }
        j += WIDTH;
    }
    j
}

// The first event of another role or node from word i on, or where the events end.
pub fn find_other(events: &[u32], st: St, role: u32, node: u32, i: usize) -> usize
    requires { (i ≤ st.words) × (st.words ≤ length events.now) }
    ensures { ((k l v : List ℕ) → result ≡ other_of role node i (view st events.now k l v)) × (i ≤ result) × (result ≤ st.words) }
{
    let w = st.words;
    let mut j = i;
    while WIDTH <= w - j {
        if !is_at(events, j, role, node) {
            return j;
        }
        j += WIDTH;
    }
    j
}

// n words, from one event after `to`, brought one event to the front.
pub fn shift(events: &mut [u32], st: St, to: usize, n: usize)
    requires { (to + width + n ≤ st.words) × (st.words ≤ length events.old) }
    ensures { (k l v : List ℕ) → view st events.new k l v ≡ shift_of to n (view st events.old k l v) }
{
    let mut i: usize = 0;
    while i < n {
        let v = events[to + WIDTH + i];
        events[to + i] = v;
        i += 1;
    }
}

// The words from a to w moved s words to the back.
fn lift(events: &mut [u32], a: usize, w: usize, s: usize)
    requires { (a ≤ w) × (w + s ≤ length events.old) }
    ensures { events.new ≡ paste events.old (a + s) (drop a events.old) (w - a) }
{
    let mut j = w;
    while a < j {
        j -= 1;
        let v = events[j];
        events[j + s] = v;
    }
}

// Whether each of the open events os stands whole before word a.
fn all_before(os: &[usize], a: usize) -> bool
    ensures { (result ≡ all_before os.now a 0 (length os.now)) × (result ≡ true → (j : ℕ) → j < length os.now → get_or os.now j 0 + width ≤ a) }
{
    let mut i: usize = 0;
    while i < os.len() {
        if a < WIDTH {
            return false;
        }
        if a - WIDTH < os[i] {
            return false;
        }
        i += 1;
    }
    true
}

// The Exits of the open events os, the last first, from word a on.
fn fill_exits(events: &mut [u32], os: &[usize], pos: u32, a: usize)
    requires { (a + width * length os.now ≤ length events.old) × ((j : ℕ) → j < length os.now → get_or os.now j 0 + width ≤ a) }
    ensures { events.new ≡ take a events.old ++ exits_of pos events.old os.now (length os.now) ++ drop (a + width * length os.now) events.old }
{
    let n = os.len();
    let mut i: usize = 0;
    while i < n {
        let o = os[n - (i + 1)];
        let x = events::exit_event(events, o, pos, pos);
        events::put(events, a + WIDTH * i, x);
        i += 1;
    }
}

// The sections whose Enters are os end at `pos`, before word a: what stands from there on moves once.
pub fn end_sections(events: &mut [u32], os: &[usize], st: St, pos: u32, a: usize) -> St
    requires { (a ≤ st.words) × (st.words ≤ length events.old) }
    ensures by_index { (k l v : List ℕ) → view result events.new k l v ≡ sections_of pos a os.now (view st events.old k l v) }
    ensures words_in_bounds { (result.words ≤ length events.new) × Same st result }
{
    let w = st.words;
    let n = os.len();
    if !all_before(os, a) {
        return events::refuse(st, 7);
    }
    if !events::has_room(events, st, n) {
        return events::refuse(st, 6);
    }
    lift(events, a, w, WIDTH * n);
    fill_exits(events, os, pos, a);
    let mut r = st;
    r.words = w + WIDTH * n;
    r
}
