// The state of the walk, its event words, and the stack of open events (RULES E1, E9, R11).
#![tactic(auto)]

ghost use Rattle.std.specs.Prelude.{◌≡◌, true, List, [], ◌∷◌, ◌++◌, ℕ, ◌+◌, ◌-◌, ◌/◌, ◌≤◌, ◌<◌, leb, length, take, get_or, set, replicate};
ghost use Rattle.std.proofs.lemmas.List.Edits.{sets};
ghost use Rattle.events.specs.State.{with_opn, with_sec, refuse_of};
ghost use Rattle.events.specs.Events.{width, words_of, push_of, patch_of, edit_of, cut_of, exit_event, enter_of, whole_at, exit_of};
ghost use Rattle.events.specs.Pack.{event_in, is_stale};
ghost use Rattle.events.specs.View.{view, Fits, Same, Kept};

pub mod each;

pub use each::{Each, in_turn};

// Roles (E2).
pub const STALE: u32 = 0;

pub const ENTER: u32 = 1;

pub const EXIT: u32 = 2;

pub const INLINE: u32 = 3;

pub const ATOM: u32 = 4;

// The nodes of Enter and Exit (E3).
pub const DOCUMENT: u32 = 1;

pub const BLOCKQUOTE: u32 = 2;

pub const DIV: u32 = 3;

pub const UNORDERED: u32 = 4;

pub const ORDERED: u32 = 5;

pub const TASK_LIST: u32 = 6;

pub const DESCRIPTION_LIST: u32 = 7;

pub const ITEM: u32 = 8;

pub const TASK_ITEM: u32 = 9;

pub const DESCRIPTION_ITEM: u32 = 10;

pub const FOOTNOTE: u32 = 11;

pub const TABLE: u32 = 12;

pub const TABLE_ROW: u32 = 13;

pub const SECTION: u32 = 14;

pub const PARAGRAPH: u32 = 15;

pub const HEADING: u32 = 16;

pub const DESCRIPTION_TERM: u32 = 17;

pub const TABLE_CELL: u32 = 18;

pub const CAPTION: u32 = 19;

pub const LINK_DEFINITION: u32 = 20;

pub const CODE_BLOCK: u32 = 21;

// The nodes of an Atom (E4).
pub const BLANKLINE: u32 = 1;

pub const ATTRIBUTES: u32 = 2;

pub const THEMATIC_BREAK: u32 = 3;

// The words of an event (E1): role, node, start, end, four of body. Its role is its first word, so it is read without an offset.
pub const WIDTH: usize = 8;

pub const NODE: usize = 1;

pub const START: usize = 2;

pub const END: usize = 3;

// The body's words: a, b, c, d.
pub const BODY: usize = 4;

pub const BODY_B: usize = BODY + 1;

pub const BODY_C: usize = BODY + 2;

pub const BODY_D: usize = BODY + 3;

// The largest offset, and so the longest text (R1).
pub const LARGEST: u32 = 16777215;

// The most events that can be open at once.
pub const MOST: usize = 128;

// How deep containers, sections and lists nest at most: a list is opened by an item, and inside a container one list is open at most.
pub const DEEPEST: usize = 32;

// The state of the walk. Flags stand last, without a hole before them, so that a copy takes the pieces that were stored.
#[derive(Clone, Copy)]
pub struct St {
    // event words written
    pub words: usize,
    // open events, open lists, open sections
    pub depth: usize,
    pub lists: usize,
    pub sections: usize,
    // the word of the first of the Attributes just before, plus one; 0: none
    pub attr: usize,
    // the least nesting left so far
    pub spare: usize,
    // the marker start of the innermost unfinished block: a refusal's position
    pub at: u32,
    // the refusal; 0: none
    pub number: u32,
    pub looks: u64,
    // the block before was a blank line; and it made a list loose
    pub blank: bool,
    pub loose: bool,
}

#[derive(Clone, Copy)]
pub struct Event {
    pub role: u32,
    pub node: u32,
    pub start: u32,
    pub end: u32,
    pub a: u32,
    pub b: u32,
    pub c: u32,
    pub d: u32,
}

// What an Enter says: its node, its span and its body.
#[derive(Clone, Copy)]
pub struct Node {
    pub node: u32,
    pub start: u32,
    pub end: u32,
    pub a: u32,
    pub b: u32,
    pub c: u32,
    pub d: u32,
}

pub fn refuse(st: St, number: u32) -> St
    ensures { ((e k l v : List ℕ) → view result e k l v ≡ refuse_of number (view st e k l v)) × (result.words ≡ st.words) × (result.depth ≡ st.depth) × (result.number ≡ number) × Same st result }
{
    let mut r = st;
    r.number = number;
    r
}

// The words of an event, written at word i.
pub fn put(events: &mut [u32], i: usize, x: Event)
    requires { i + width ≤ length events.old }
    ensures { events.new ≡ sets events.old i (words_of x) }
{
    events[i] = x.role;
    events[i + NODE] = x.node;
    events[i + START] = x.start;
    events[i + END] = x.end;
    events[i + BODY] = x.a;
    events[i + BODY_B] = x.b;
    events[i + BODY_C] = x.c;
    events[i + BODY_D] = x.d;
}

// The event at a word.
pub fn event_at(words: &[u32], at: usize) -> Event
    requires { whole_at words.now at ≡ true }
    ensures { result ≡ event_in words.now at }
{
    Event {
        role: words[at],
        node: words[at + NODE],
        start: words[at + START],
        end: words[at + END],
        a: words[at + BODY],
        b: words[at + BODY_B],
        c: words[at + BODY_C],
        d: words[at + BODY_D],
    }
}

// Whether all its words are zero.
pub fn is_stale(x: Event) -> bool
    ensures { result ≡ is_stale x }
{
    if x.role != STALE {
        return false;
    }
    if x.node != 0 {
        return false;
    }
    if x.start != 0 {
        return false;
    }
    if x.end != 0 {
        return false;
    }
    if x.a != 0 {
        return false;
    }
    if x.b != 0 {
        return false;
    }
    if x.c != 0 {
        return false;
    }
    x.d == 0
}

// Zeros from word `from` on.
pub fn clear(words: &mut [u32], from: usize)
    requires { from ≤ length words.old }
    ensures { words.new ≡ take from words.old ++ replicate (length words.old - from) 0 }
{
    let mut i = from;
    while i < words.len() {
        words[i] = 0;
        i += 1;
    }
}

// Whether n events more have room: the one place where room is asked for.
pub fn has_room(events: &[u32], st: St, n: usize) -> bool
    requires { st.words ≤ length events.now }
    ensures { result ≡ leb n ((length events.now - st.words) / width) }
{
    n <= (events.len() - st.words) / WIDTH
}

// One event more.
pub fn push(events: &mut [u32], st: St, x: Event) -> St
    requires { st.words ≤ length events.old }
    ensures by_index { (k l v : List ℕ) → view result events.new k l v ≡ push_of x (view st events.old k l v) }
    ensures words_in_bounds { (result.words ≤ length events.new) × (result.number ≡ 0 → result.words ≡ st.words + width) × Same st result }
{
    let n = st.words;
    if !has_room(events, st, 1) {
        return refuse(st, 6);
    }
    put(events, n, x);
    let mut r = st;
    r.words = n + WIDTH;
    r
}

// A word of the events so far.
pub fn word(events: &[u32], st: St, i: usize) -> u32
    requires { (i < st.words) × (st.words ≤ length events.now) }
    ensures { (k l v : List ℕ) → result ≡ get_or (view st events.now k l v).evs i 0 }
{
    events[i]
}

// One word of an event before, changed.
pub fn patch(events: &mut [u32], st: St, i: usize, v: u32)
    requires { (i < st.words) × (st.words ≤ length events.old) }
    ensures { (k l s : List ℕ) → view st events.new k l s ≡ patch_of i v (view st events.old k l s) }
{
    events[i] = v;
}

// The event at word i becomes x.
pub fn edit(events: &mut [u32], st: St, i: usize, x: Event)
    requires { (i + width ≤ st.words) × (st.words ≤ length events.old) }
    ensures { (k l v : List ℕ) → view st events.new k l v ≡ edit_of i x (view st events.old k l v) }
{
    put(events, i, x);
}

// Only the first n words are kept.
pub fn cut(st: St, n: usize) -> St
    requires { n ≤ st.words }
    ensures { ((e k l v : List ℕ) → view result e k l v ≡ cut_of n (view st e k l v)) × (result.words ≡ n) × Same st result }
{
    let mut r = st;
    r.words = n;
    r
}

// An Enter, open from here on.
pub fn enter(events: &mut [u32], stack: &mut [usize], st: St, x: Node) -> St
    requires { Fits st events.old stack.old }
    ensures by_index { (l v : List ℕ) → view result events.new stack.new l v ≡ enter_of x (view st events.old stack.old l v) }
    ensures fits { Fits result events.new stack.new × (result.number ≡ 0 → result.depth ≡ st.depth + 1) × Kept st result }
{
    let d = st.depth;
    if MOST <= d {
        return refuse(st, 7);
    }
    let e = Event {
        role: ENTER,
        node: x.node,
        start: x.start,
        end: x.end,
        a: x.a,
        b: x.b,
        c: x.c,
        d: x.d,
    };
    let w = st.words;
    let a = push(events, st, e);
    if a.number != 0 {
        return a;
    }
    stack[d] = w;
    let mut r = a;
    r.depth = d + 1;
    r
}

// Where the open event at place d stands.
pub fn open_at(stack: &[usize], st: St, d: usize) -> usize
    requires { (d < st.depth) × (st.depth ≤ length stack.now) }
    ensures { (e l v : List ℕ) → result ≡ get_or (view st e stack.now l v).opn d 0 }
{
    stack[d]
}

// The open event at place d stands at word o now.
pub fn reopen(stack: &mut [usize], st: St, d: usize, o: usize)
    requires { (d < st.depth) × (st.depth ≤ length stack.old) }
    ensures { (e l v : List ℕ) → view st e stack.new l v ≡ with_opn (set (view st e stack.old l v).opn d o) (view st e stack.old l v) }
{
    stack[d] = o;
}

// After the first n open sections one of this level is open, and no other.
pub fn push_level(levels: &mut [usize], st: St, n: usize, level: usize) -> St
    requires { (n ≤ st.sections) × (n < length levels.old) }
    ensures by_index { (e k l : List ℕ) → view result e k l levels.new ≡ with_sec (take n (view st e k l levels.old).sec ++ (level ∷ [])) (view st e k l levels.old) }
    ensures words_value { (result.words ≡ st.words) × (result.depth ≡ st.depth) × (result.lists ≡ st.lists) × (result.sections ≡ n + 1) }
{
    levels[n] = level;
    let mut r = st;
    r.sections = n + 1;
    r
}

// The Exit of the event at word o.
pub fn exit_event(events: &[u32], o: usize, start: u32, end: u32) -> Event
    requires { o + width ≤ length events.now }
    ensures { result ≡ exit_event events.now o start end }
{
    Event {
        role: EXIT,
        node: events[o + NODE],
        start,
        end,
        a: events[o + BODY],
        b: events[o + BODY_B],
        c: events[o + BODY_C],
        d: events[o + BODY_D],
    }
}

// Whether a whole event stands at word o.
pub fn whole(st: St, o: usize) -> bool
    ensures { ((e k l v : List ℕ) → st.words ≤ length e → result ≡ whole_at (view st e k l v).evs o) × (result ≡ true → o + width ≤ st.words) }
{
    if st.words < WIDTH {
        return false;
    }
    o <= st.words - WIDTH
}

// The Exit of the innermost open event.
pub fn exit(events: &mut [u32], stack: &[usize], st: St, start: u32, end: u32) -> St
    requires { Fits st events.old stack.now }
    ensures by_index { (l v : List ℕ) → view result events.new stack.now l v ≡ exit_of start end (view st events.old stack.now l v) }
    ensures fits { Fits result events.new stack.now × (result.number ≡ 0 → result.depth + 1 ≡ st.depth) × Kept st result }
{
    if st.depth == 0 {
        return refuse(st, 7);
    }
    let d = st.depth - 1;
    let o = stack[d];
    if !whole(st, o) {
        return refuse(st, 7);
    }
    if events[o] != ENTER {
        return refuse(st, 7);
    }
    let w = st.words;
    let x = exit_event(&events[..w], o, start, end);
    let a = push(events, st, x);
    if a.number != 0 {
        return a;
    }
    let mut r = a;
    r.depth = d;
    r
}
