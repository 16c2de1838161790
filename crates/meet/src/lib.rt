// A block that is met, before its own events: its spans, its lines, its refusals, and the list that is open here (RULES O1, O2, R8 to R14, L2, T3 to T6).
#![tactic(auto)]

ghost use Rattle.std.specs.Prelude.{◌≡◌, List, ℕ, ◌+◌, ◌-◌, ◌*◌, ◌%◌, ◌^◌, ◌≤◌, ◌<◌, eqb, leb, ltb, length, take, drop, get_or};
ghost use Rattle.classes.specs.Choice.{pick, both};
ghost use Rattle.lines.specs.Lines.{span, spans_of};
ghost use Rattle.lists.specs.Lists.{same_type};
ghost use Rattle.measure.specs.Continue.{heading_kind, kind_num, level_of};
ghost use Rattle.events.specs.Names.{list_width};
ghost use Rattle.events.specs.State.{with_flags, with_at};
ghost use Rattle.events.specs.View.{view, Fits, Same};
ghost use Rattle.walk.specs.Bounds.{Near, Bounded};
ghost use Rattle.walk.specs.Fields.{is_container};
ghost use Rattle.walk.specs.Leaf.{kept_of};
ghost use Rattle.walk.specs.Tree.{met_of, marker_start, after_quote, skip_opening, inner_lines, count_of, admit_of, go_on, settle_of, loose_at, loosen_of, ready_of, attr_of};

use events::St;
use kinds::Kind;
use lists::OpenList;
use markers::{Continued, Marker};
use measure::Measured;
use walk::{Limits, Met};

// Which of a block's line words are inside it.
#[derive(Clone, Copy)]
pub struct Inside {
    pub start: usize,
    pub end: usize,
}

// ---- spans and lines

// Its closing span is a closed fence's last line, else empty at the end of the last line.
pub fn met(lines: &[u32], m: Measured) -> Met
    requires { (2 ≤ length lines.now) × (length lines.now % 2 ≡ 0) × Near (get_or lines.now 0 0) m }
    ensures { (result ≡ met_of m (spans_of lines.now)) × Bounded result (get_or lines.now 0 0) }
{
    let kind = m.kind;
    let n = lines.len();
    let base = lines[0];
    let to = lines[n - 1];
    let start = walk::offset(base, m.opening.start);
    let end = walk::offset(base, m.opening.end);
    if walk::closed_of(kind) {
        return Met {
            kind,
            start,
            end,
            from: lines[n - 2],
            to,
        };
    }
    Met {
        kind,
        start,
        end,
        from: to,
        to,
    }
}

// A definition's marker is its `[`, every other block's starts its opening span.
pub fn marker_start(m: Met, line: u32) -> u32
    requires { Bounded m line }
    ensures { result ≡ marker_start m line }
{
    let kind = m.kind;
    if measure::kind_num(kind) == measure::DEFINITION {
        return walk::offset(line, walk::indent_of(kind));
    }
    m.start
}

// A space or tab after a blockquote's `>` goes with it, on a line that ends at `end`.
fn after_quote(text: &[u8], m: Met, end: u32) -> u32
    ensures { ((s : ℕ) → result ≡ after_quote text.now m (span s end)) × (m.end + result < 2 ^ 32) }
{
    let kind = m.kind;
    if end <= m.end {
        return 0;
    }
    if measure::kind_num(kind) != measure::BLOCKQUOTE {
        return 0;
    }
    let b = classes::byte_at(text, m.end as usize);
    if b == b' ' {
        return 1;
    }
    if b == b'\t' {
        return 1;
    }
    0
}

// The first line without the opening.
pub fn skip_opening(text: &[u8], lines: &mut [u32], m: Met)
    requires { 2 ≤ length lines.old }
    ensures { spans_of lines.new ≡ skip_opening text.now m (spans_of lines.old) }
{
    let end = lines[1];
    lines[0] = m.end + after_quote(text, m, end);
}

// The lines inside a fence, or all, of n line words.
pub fn inner(kind: Kind, n: usize) -> Inside
    requires { (2 ≤ n) × (n % 2 ≡ 0) }
    ensures start_le_end { (result.start ≤ result.end) × (result.end ≤ n) }
    ensures by_index { (ws : List ℕ) → length ws ≡ n → spans_of (take (result.end - result.start) (drop result.start ws)) ≡ inner_lines kind (spans_of ws) }
{
    if measure::kind_num(kind) != measure::FENCED {
        return Inside { start: 0, end: n };
    }
    if !walk::closed_of(kind) {
        return Inside { start: 2, end: n };
    }
    if n < 4 {
        return Inside { start: 2, end: 2 };
    }
    Inside {
        start: 2,
        end: n - 2,
    }
}

// ---- refusals

// The block's looks are counted, and its marker is where a refusal would be.
pub fn count(st: St, at: u32, looks: u64) -> St
    ensures { ((e k l v : List ℕ) → view result e k l v ≡ count_of at looks (view st e k l v)) × (result.words ≡ st.words) × Same st result }
{
    let mut r = st;
    r.at = at;
    if 18446744073709551615 - looks < st.looks {
        return events::refuse(r, 7);
    }
    r.looks = st.looks + looks;
    r
}

// Refusal 5: a heading of too high a level.
fn too_high(kind: Kind) -> bool
    ensures { result ≡ both (eqb (kind_num kind) heading_kind) (ltb 65535 (level_of kind)) }
{
    if measure::kind_num(kind) != measure::HEADING {
        return false;
    }
    65535 < measure::level_of(kind)
}

// Refusal 3: a container where no nesting is left.
fn too_deep(kind: Kind, left: usize) -> bool
    ensures { result ≡ both (is_container kind) (eqb left 0) }
{
    if !walk::is_container(kind) {
        return false;
    }
    left == 0
}

// Refusal 4: a heading at the top inside too many of these open sections.
fn too_many(levels: &[usize], lim: Limits, top: bool, kind: Kind) -> bool
    ensures { result ≡ both (eqb (kind_num kind) heading_kind) (both top (leb lim.sections (kept_of levels.now (level_of kind) (length levels.now)))) }
{
    if measure::kind_num(kind) != measure::HEADING {
        return false;
    }
    if !top {
        return false;
    }
    lim.sections <= walk::kept_sections(levels, measure::level_of(kind))
}

// Refusals 5, 3 and 4, before any event of the block.
pub fn admit(levels: &[usize], lim: Limits, left: usize, top: bool, m: Met, st: St) -> St
    requires { st.sections ≤ length levels.now }
    ensures { ((e k l : List ℕ) → view result e k l levels.now ≡ admit_of lim left top m (view st e k l levels.now)) × (result.words ≡ st.words) × Same st result }
{
    let kind = m.kind;
    if too_high(kind) {
        return events::refuse(st, 5);
    }
    if too_deep(kind, left) {
        return events::refuse(st, 3);
    }
    if too_many(&levels[..st.sections], lim, top, kind) {
        return events::refuse(st, 4);
    }
    st
}

// ---- lists

// The type that a list has after one more item: the item's, while it is still the last item's.
fn start_type(o: OpenList, p: Marker) -> Marker
    ensures { result ≡ pick (same_type o.start o.prev) p o.start }
{
    let start = o.start;
    let prev = o.prev;
    if lists::same_type(start, prev) {
        return p;
    }
    start
}

// The innermost list o goes on, or ends at `pos`.
fn go_on(
    events: &mut [u32],
    stack: &[usize],
    lists: &mut [u64],
    o: OpenList,
    pos: u32,
    c: Option<Continued>,
    st: St,
) -> St
    requires { Fits st events.old stack.now × (0 < st.lists) × (st.lists * list_width ≤ length lists.old) }
    ensures by_index { (v : List ℕ) → view result events.new stack.now lists.new v ≡ go_on o pos c (view st events.old stack.now lists.old v) }
    ensures fits { Fits result events.new stack.now × (result.lists * list_width ≤ length lists.new) × (result.sections ≡ st.sections) }
{
    match c {
        None => lists::close_list(events, stack, lists, pos, st),
        Some(on) => {
            let start = start_type(o, on.prev);
            let depth = o.depth;
            lists::set_list(
                lists,
                st,
                OpenList {
                    start,
                    prev: on.next,
                    depth,
                },
            );
            st
        }
    }
}

// The list at this depth goes on with an item of its type, and ends before any other block.
pub fn settle_list(events: &mut [u32], stack: &[usize], lists: &mut [u64], m: Met, st: St) -> St
    requires { Fits st events.old stack.now × (st.lists * list_width ≤ length lists.old) }
    ensures by_index { (v : List ℕ) → view result events.new stack.now lists.new v ≡ settle_of m (view st events.old stack.now lists.old v) }
    ensures fits { Fits result events.new stack.now × (result.lists * list_width ≤ length lists.new) × (result.sections ≡ st.sections) }
{
    let kind = m.kind;
    if st.lists == 0 {
        return st;
    }
    let o = lists::last_list(lists, st);
    let prev = o.prev;
    if o.depth != st.depth {
        return st;
    }
    if measure::kind_num(kind) != measure::LIST_ITEM {
        return lists::close_list(events, stack, lists, m.start, st);
    }
    let c = markers::continues(prev, walk::marker_in(kind));
    go_on(events, stack, lists, o, m.start, c, st)
}

fn flags(st: St, blank: bool, loose: bool) -> St
    ensures { ((e k l v : List ℕ) → view result e k l v ≡ with_flags blank loose (view st e k l v)) × (result.words ≡ st.words) × Same st result }
{
    let mut r = st;
    r.blank = blank;
    r.loose = loose;
    r
}

// The list with its Enter at word e is loose, and it is remembered if it was tight.
fn loose_at(events: &mut [u32], e: usize, st: St) -> St
    requires { st.words ≤ length events.old }
    ensures { ((k l v : List ℕ) → view result events.new k l v ≡ loose_at e (view st events.old k l v)) × (result.words ≡ st.words) × Same st result }
{
    if !events::whole(st, e) {
        return events::refuse(st, 7);
    }
    if events::word(events, st, e + lists::TIGHT) != 1 {
        return flags(st, false, false);
    }
    events::patch(events, st, e + lists::TIGHT, 0);
    flags(st, false, true)
}

// A blank line before a block makes the innermost list loose, unless the block is an item that begins a list inside it.
pub fn loosen(events: &mut [u32], stack: &[usize], lists: &[u64], m: Met, st: St) -> St
    requires { Fits st events.old stack.now × (st.lists * list_width ≤ length lists.now) }
    ensures { ((v : List ℕ) → view result events.new stack.now lists.now v ≡ loosen_of m (view st events.old stack.now lists.now v)) × (result.words ≡ st.words) × Same st result }
{
    let kind = m.kind;
    let n = measure::kind_num(kind);
    if n == measure::BLANKLINE {
        return flags(st, true, st.loose);
    }
    if !st.blank {
        return flags(st, false, false);
    }
    if st.lists == 0 {
        return flags(st, false, false);
    }
    let o = lists::last_list(lists, st);
    let d = o.depth;
    if st.depth < d {
        return events::refuse(st, 7);
    }
    if d == 0 {
        return flags(st, false, false);
    }
    if n == measure::LIST_ITEM {
        if d < st.depth {
            return flags(st, false, false);
        }
    }
    loose_at(events, events::open_at(stack, st, d - 1), st)
}

// ---- both

// A block before its own events.
pub fn ready(
    events: &mut [u32],
    stack: &[usize],
    lists: &mut [u64],
    levels: &[usize],
    lim: Limits,
    left: usize,
    top: bool,
    m: Met,
    at: u32,
    looks: u64,
    st: St,
) -> St
    requires { Fits st events.old stack.now × (st.lists * list_width ≤ length lists.old) × (st.sections ≤ length levels.now) }
    ensures levels_after { view result events.new stack.now lists.new levels.now ≡ ready_of lim left top m at looks (view st events.old stack.now lists.old levels.now) }
    ensures fits { Fits result events.new stack.now × (result.lists * list_width ≤ length lists.new) × (result.sections ≡ st.sections) }
{
    let a = count(st, at, looks);
    if a.number != 0 {
        return a;
    }
    let b = admit(levels, lim, left, top, m, a);
    if b.number != 0 {
        return b;
    }
    let c = settle_list(events, stack, lists, m, b);
    if c.number != 0 {
        return c;
    }
    loosen(events, stack, lists, m, c)
}

// A block after its own events, of which the first stood at word w: the attributes are remembered, and `at` is the block's around it.
pub fn done(m: Met, at: u32, w: usize, st: St) -> St
    requires { w < 2 ^ 63 }
    ensures { ((e k l v : List ℕ) → view result e k l v ≡ with_at at (attr_of m w (view st e k l v))) × (result.words ≡ st.words) × Same st result }
{
    let kind = m.kind;
    let mut r = st;
    r.at = at;
    if measure::kind_num(kind) != measure::ATTRIBUTES {
        r.attr = 0;
        return r;
    }
    if st.attr != 0 {
        return r;
    }
    r.attr = w + 1;
    r
}
