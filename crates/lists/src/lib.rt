// The stack of open lists, five words a list; what a list's type is in words; and how a list ends (RULES E7, L10, O4, T7).
#![tactic(auto)]

ghost use Rattle.std.specs.Prelude.{◌≡◌, List, ℕ, ◌+◌, ◌*◌, ◌≤◌, ◌<◌, length};
ghost use Rattle.std.proofs.lemmas.List.Edits.{sets};
ghost use Rattle.classes.specs.Choice.{pick};
ghost use Rattle.events.specs.Names.{list_width, list_room};
ghost use Rattle.events.specs.Events.{patch_of};
ghost use Rattle.events.specs.View.{view, Fits};
ghost use Rattle.lists.specs.Lists.{tight_word, type_detail, type_value, type_word, numbering_by, style_by, type_of, same_type, list_words, push_list_of, last_list_of, set_list_of, pop_list_of, retype_of, close_list_of};

use events::St;
use markers::{Marker, Style};
use numbers::Numbering;

// The words of an open list: word and value of the type that it has, then of its last item's, then how many events are open inside it.
pub const LIST_WIDTH: usize = 5;

const VALUE: usize = 1;

const PREV: usize = 2;

const PREV_VALUE: usize = 3;

const DEPTH: usize = 4;

// The words of as many open lists as there can be.
pub const LIST_ROOM: usize = events::DEEPEST * LIST_WIDTH;

// The body's words of a list's Enter and Exit (E3): tight, a bullet or numbering x 4 + style, a value's lower and upper half.
pub const TIGHT: usize = events::BODY;

const DETAIL: usize = events::BODY_B;

const LOW: usize = events::BODY_C;

const HIGH: usize = events::BODY_D;

// An open list: the type that it has, the type of its last item, and how many events are open inside it.
#[derive(Clone, Copy)]
pub struct OpenList {
    pub start: Marker,
    pub prev: Marker,
    pub depth: usize,
}

fn wide(x: u8) -> u64
    ensures { result ≡ x }
{
    x as u64
}

// The word of a type's body: a bullet, or numbering x 4 + style.
pub fn type_detail(m: Marker) -> u64
    ensures { (result ≡ type_detail m) × (result < 256) }
{
    match m {
        Marker::Nothing => 0,
        Marker::Unordered(b) => wide(b),
        Marker::Ordered {
            numbering,
            style,
            ..
        } => wide(u8::from(numbering)) * 4 + wide(u8::from(style)),
        Marker::Task(b) => wide(b),
        Marker::Description => 0,
    }
}

// The number that a type starts with, 0 where it has none.
pub fn type_value(m: Marker) -> u64
    ensures { result ≡ type_value m }
{
    match m {
        Marker::Nothing => 0,
        Marker::Unordered(_) => 0,
        Marker::Ordered { value, .. } => value,
        Marker::Task(_) => 0,
        Marker::Description => 0,
    }
}

// A type's kind and detail in one word.
fn type_word(m: Marker) -> u64
    ensures { result ≡ type_word m }
{
    wide(markers::marker_num(m)) * 256 + type_detail(m)
}

fn numbering_by(n: u64) -> Numbering
    ensures { result ≡ numbering_by n }
{
    if n == 1 {
        return Numbering::Decimal;
    }
    if n == 2 {
        return Numbering::AlphaLower;
    }
    if n == 3 {
        return Numbering::AlphaUpper;
    }
    if n == 4 {
        return Numbering::RomanLower;
    }
    Numbering::RomanUpper
}

fn style_by(n: u64) -> Style
    ensures { result ≡ style_by n }
{
    if n == 0 {
        return Style::Period;
    }
    if n == 1 {
        return Style::Paren;
    }
    Style::ParenParen
}

// The type that a word and a value stand for.
fn type_of(word: u64, value: u64) -> Marker
    ensures { result ≡ type_of word value }
{
    let kind = word / 256;
    let detail = word % 256;
    if kind == 1 {
        return Marker::Unordered(detail as u8);
    }
    if kind == 2 {
        let numbering = numbering_by(detail / 4);
        let style = style_by(detail % 4);
        return Marker::Ordered {
            numbering,
            style,
            value,
        };
    }
    if kind == 3 {
        return Marker::Task(detail as u8);
    }
    if kind == 4 {
        return Marker::Description;
    }
    Marker::Nothing
}

// Whether two types are the same in all.
pub fn same_type(a: Marker, b: Marker) -> bool
    ensures { result ≡ same_type a b }
{
    if type_word(a) != type_word(b) {
        return false;
    }
    type_value(a) == type_value(b)
}

fn store_list(lists: &mut [u64], i: usize, o: OpenList)
    requires { i + list_width ≤ length lists.old }
    ensures { lists.new ≡ sets lists.old i (list_words o) }
{
    let start = o.start;
    let prev = o.prev;
    lists[i] = type_word(start);
    lists[i + VALUE] = type_value(start);
    lists[i + PREV] = type_word(prev);
    lists[i + PREV_VALUE] = type_value(prev);
    lists[i + DEPTH] = o.depth as u64;
}

// One open list more.
pub fn push_list(lists: &mut [u64], st: St, o: OpenList) -> St
    requires { (st.lists * list_width ≤ length lists.old) × (list_room ≤ length lists.old) }
    ensures by_index { (e k v : List ℕ) → view result e k lists.new v ≡ push_list_of o (view st e k lists.old v) }
    ensures list_width_in_bounds { (result.lists * list_width ≤ length lists.new) × (result.words ≡ st.words) × (result.depth ≡ st.depth) × (result.sections ≡ st.sections) }
{
    let n = st.lists;
    if events::DEEPEST <= n {
        return events::refuse(st, 7);
    }
    store_list(lists, n * LIST_WIDTH, o);
    let mut r = st;
    r.lists = n + 1;
    r
}

// The innermost open list.
pub fn last_list(lists: &[u64], st: St) -> OpenList
    requires { (0 < st.lists) × (st.lists * list_width ≤ length lists.now) }
    ensures { (e k v : List ℕ) → result ≡ last_list_of (view st e k lists.now v) }
{
    let i = (st.lists - 1) * LIST_WIDTH;
    OpenList {
        start: type_of(lists[i], lists[i + VALUE]),
        prev: type_of(lists[i + PREV], lists[i + PREV_VALUE]),
        depth: lists[i + DEPTH] as usize,
    }
}

// The innermost open list, changed.
pub fn set_list(lists: &mut [u64], st: St, o: OpenList)
    requires { (0 < st.lists) × (st.lists * list_width ≤ length lists.old) }
    ensures { (e k v : List ℕ) → view st e k lists.new v ≡ set_list_of o (view st e k lists.old v) }
{
    store_list(lists, (st.lists - 1) * LIST_WIDTH, o);
}

// The innermost list is open no more.
pub fn pop_list(st: St) -> St
    requires { 0 < st.lists }
    ensures { ((e k l v : List ℕ) → st.lists * list_width ≤ length l → view result e k l v ≡ pop_list_of (view st e k l v)) × (result.lists + 1 ≡ st.lists) × (result.words ≡ st.words) × (result.depth ≡ st.depth) × (result.sections ≡ st.sections) }
{
    let mut r = st;
    r.lists = st.lists - 1;
    r
}

// The Enter at word e is tight again after a blank line at the list's end.
fn tighten(events: &mut [u32], st: St, e: usize)
    requires { (e + 8 ≤ st.words) × (st.words ≤ length events.old) }
    ensures { (k l v : List ℕ) → view st events.new k l v ≡ pick st.loose (patch_of (e + tight_word) 1 (view st events.old k l v)) (view st events.old k l v) }
{
    if !st.loose {
        return;
    }
    events::patch(events, st, e + TIGHT, 1);
}

// The Enter at word e gets its list's type, and is tight again after a blank line at the list's end.
fn retype(events: &mut [u32], st: St, e: usize, ty: Marker)
    requires { (e + 8 ≤ st.words) × (st.words ≤ length events.old) }
    ensures { (k l v : List ℕ) → view st events.new k l v ≡ retype_of e ty (view st events.old k l v) }
{
    let value = type_value(ty);
    let detail = type_detail(ty);
    tighten(events, st, e);
    events::patch(events, st, e + DETAIL, detail as u32);
    events::patch(events, st, e + LOW, (value % 4294967296) as u32);
    events::patch(events, st, e + HIGH, (value / 4294967296) as u32);
}

// The innermost list ends at `pos`.
pub fn close_list(events: &mut [u32], stack: &[usize], lists: &[u64], pos: u32, st: St) -> St
    requires { Fits st events.old stack.now × (st.lists * list_width ≤ length lists.now) }
    ensures by_index { (v : List ℕ) → view result events.new stack.now lists.now v ≡ close_list_of pos (view st events.old stack.now lists.now v) }
    ensures fits { Fits result events.new stack.now × (result.lists * list_width ≤ length lists.now) × (result.sections ≡ st.sections) }
{
    if st.lists == 0 {
        return events::refuse(st, 7);
    }
    let o = last_list(lists, st);
    let ty = o.start;
    let d = o.depth;
    if d == 0 {
        return events::refuse(st, 7);
    }
    if st.depth < d {
        return events::refuse(st, 7);
    }
    let e = stack[d - 1];
    if !events::whole(st, e) {
        return events::refuse(st, 7);
    }
    retype(events, st, e, ty);
    let a = events::exit(events, stack, st, pos, pos);
    if a.number != 0 {
        return a;
    }
    pop_list(a)
}
