// Containers: prefixes off their lines, their Enters and Exits, and the term of a description item (RULES P, L1, U).
#![tactic(auto)]

ghost use Rattle.std.specs.Prelude.{◌≡◌, List, ℕ, ◌*◌, ◌≤◌, ◌<◌, eqb, length};
ghost use Rattle.classes.specs.Choice.{pick};
ghost use Rattle.lines.specs.Lines.{spans_of};
ghost use Rattle.markers.specs.Markers.{marker_num};
ghost use Rattle.measure.specs.Continue.{list_item_kind, kind_num};
ghost use Rattle.events.specs.Names.{list_width, list_room};
ghost use Rattle.events.specs.View.{view, Fits, Kept};
ghost use Rattle.walk.specs.Bounds.{Bounded};
ghost use Rattle.walk.specs.Fields.{marker_in};
ghost use Rattle.walk.specs.Tree.{quote_prefix, skip_of, prefix_of, strip_lines, open_here, open_list, open_term, item_node, container_node, open_container, close_inner, close_container};

use events::{Node, St};
use kinds::Kind;
use lists::OpenList;
use markers::Marker;
use walk::Met;

// A list's node is its marker's number and this: Unordered, Ordered, TaskList, DescriptionList.
const BEFORE_LISTS: u32 = events::UNORDERED - 1;

// ---- prefixes

// A blockquote's later line starts after `>` and one whitespace byte; nothing goes off a lazy line.
fn strip_quote(line: &[u8]) -> usize
    ensures { result ≡ quote_prefix line.now }
{
    let front = trim::trim_start(line);
    let t = trim::trim_end(front);
    if classes::byte_at(t, 0) != b'>' {
        return 0;
    }
    let lead = line.len() - front.len();
    if t.len() == 1 {
        return lead + 1;
    }
    if classes::is_space(classes::byte_at(t, 1)) {
        return lead + 2;
    }
    0
}

// What goes off a later line, were it not for its newline; `opening` is the length of the opening on the first line.
fn skip_of(kind: Kind, opening: usize, line: &[u8]) -> usize
    ensures { result ≡ skip_of kind opening line.now }
{
    let n = measure::kind_num(kind);
    if n == measure::BLOCKQUOTE {
        return strip_quote(line);
    }
    let lead = line.len() - trim::trim_start(line).len();
    if n == measure::FENCED {
        return walk::least(lead, walk::indent_of(kind));
    }
    walk::least(lead, opening)
}

// How many bytes of a later line are the container's prefix.
fn prefix(kind: Kind, opening: usize, line: &[u8]) -> usize
    ensures { (result ≡ prefix_of kind opening line.now) × (result ≤ length line.now) }
{
    let front = trim::part(line, 0, skip_of(kind, opening, line));
    lines::find(front, b'\n').unwrap_or(front.len())
}

// The prefixes off all lines but the first.
pub fn strip_prefixes(text: &[u8], lines: &mut [u32], kind: Kind, opening: usize)
    ensures { spans_of lines.new ≡ strip_lines text.now kind opening (spans_of lines.old) }
{
    let n = lines.len() / 2;
    let mut k: usize = 1;
    while k < n {
        let start = lines[k * 2];
        let line = walk::part_at(text, start, lines[k * 2 + 1]);
        let from = walk::offset(start, prefix(kind, opening, line));
        lines[k * 2] = from;
        k += 1;
    }
}

// ---- Enters

// Whether a list is open here, so that an item goes on it.
fn open_here(lists: &[u64], st: St) -> bool
    requires { st.lists * list_width ≤ length lists.now }
    ensures { (e k v : List ℕ) → st.depth ≤ length k → result ≡ open_here (view st e k lists.now v) }
{
    if st.lists == 0 {
        return false;
    }
    let o = lists::last_list(lists, st);
    st.depth <= o.depth
}

// A list begins with this item, unless one is open here.
fn open_list(
    events: &mut [u32],
    stack: &mut [usize],
    lists: &mut [u64],
    ty: Marker,
    pos: u32,
    st: St,
) -> St
    requires { Fits st events.old stack.old × (st.lists * list_width ≤ length lists.old) × (list_room ≤ length lists.old) }
    ensures by_index { (v : List ℕ) → view result events.new stack.new lists.new v ≡ open_list ty pos (view st events.old stack.old lists.old v) }
    ensures fits { Fits result events.new stack.new × (result.lists * list_width ≤ length lists.new) × (result.sections ≡ st.sections) }
{
    if open_here(lists, st) {
        return st;
    }
    let value = lists::type_value(ty);
    let detail = lists::type_detail(ty) as u32;
    let n = markers::marker_num(ty) as u32 + BEFORE_LISTS;
    let low = (value % 4294967296) as u32;
    let high = (value / 4294967296) as u32;
    let a = events::enter(
        events,
        stack,
        st,
        walk::node(n, pos, pos, 1, detail, low, high),
    );
    if a.number != 0 {
        return a;
    }
    let depth = a.depth;
    lists::push_list(
        lists,
        a,
        OpenList {
            start: ty,
            prev: ty,
            depth,
        },
    )
}

// The list of an item.
fn begin_list(events: &mut [u32], stack: &mut [usize], lists: &mut [u64], m: Met, st: St) -> St
    requires { Fits st events.old stack.old × (st.lists * list_width ≤ length lists.old) × (list_room ≤ length lists.old) }
    ensures by_index { (v : List ℕ) → view result events.new stack.new lists.new v ≡ pick (eqb (kind_num m.kind) list_item_kind) (open_list (marker_in m.kind) m.start (view st events.old stack.old lists.old v)) (view st events.old stack.old lists.old v) }
    ensures fits { Fits result events.new stack.new × (result.lists * list_width ≤ length lists.new) × (result.sections ≡ st.sections) }
{
    let kind = m.kind;
    if measure::kind_num(kind) != measure::LIST_ITEM {
        return st;
    }
    open_list(events, stack, lists, walk::marker_in(kind), m.start, st)
}

// A description item's term, empty until its first paragraph is known.
fn open_term(events: &mut [u32], stack: &mut [usize], m: Met, st: St) -> St
    requires { Fits st events.old stack.old }
    ensures by_index { (l v : List ℕ) → view result events.new stack.new l v ≡ open_term m (view st events.old stack.old l v) }
    ensures fits { Fits result events.new stack.new × Kept st result }
{
    let a = events::enter(
        events,
        stack,
        st,
        walk::node(events::DESCRIPTION_TERM, m.start, m.end, 0, 0, 0, 0),
    );
    if a.number != 0 {
        return a;
    }
    events::exit(events, stack, a, m.end, m.end)
}

fn begin_term(events: &mut [u32], stack: &mut [usize], m: Met, st: St) -> St
    requires { Fits st events.old stack.old }
    ensures by_index { (l v : List ℕ) → view result events.new stack.new l v ≡ pick (eqb (marker_num (marker_in m.kind)) 4) (open_term m (view st events.old stack.old l v)) (view st events.old stack.old l v) }
    ensures fits { Fits result events.new stack.new × Kept st result }
{
    let kind = m.kind;
    if markers::marker_num(walk::marker_in(kind)) != 4 {
        return st;
    }
    open_term(events, stack, m, st)
}

// An item's Enter, by its marker's number: a task is checked where its box is not empty.
fn item_node(text: &[u8], m: Met, n: u8) -> Node
    ensures { result ≡ item_node text.now m n }
{
    if n == 3 {
        let checked = classes::byte_at(text, m.start as usize + 3) != b' ';
        return walk::node(
            events::TASK_ITEM,
            m.start,
            m.end,
            walk::flag(checked),
            0,
            0,
            0,
        );
    }
    if n == 4 {
        return walk::node(events::DESCRIPTION_ITEM, m.end, m.end, 0, 0, 0, 0);
    }
    walk::node(events::ITEM, m.start, m.end, 0, 0, 0, 0)
}

fn container_node(text: &[u8], m: Met, line: u32) -> Node
    requires { Bounded m line }
    ensures { result ≡ container_node text.now m line }
{
    let kind = m.kind;
    let n = measure::kind_num(kind);
    if n == measure::FENCED {
        return walk::pair_node(m, line, events::DIV);
    }
    if n == measure::DEFINITION {
        return walk::pair_node(m, line, events::FOOTNOTE);
    }
    if n == measure::BLOCKQUOTE {
        return walk::node(events::BLOCKQUOTE, m.start, m.end, 0, 0, 0, 0);
    }
    item_node(text, m, markers::marker_num(walk::marker_in(kind)))
}

// The Enters of a container: for an item its list, for a description item its term, then its own.
pub fn open_container(
    text: &[u8],
    events: &mut [u32],
    stack: &mut [usize],
    lists: &mut [u64],
    m: Met,
    line: u32,
    st: St,
) -> St
    requires { Fits st events.old stack.old × (st.lists * list_width ≤ length lists.old) × (list_room ≤ length lists.old) × Bounded m line }
    ensures by_index { (v : List ℕ) → view result events.new stack.new lists.new v ≡ open_container text.now m line (view st events.old stack.old lists.old v) }
    ensures fits { Fits result events.new stack.new × (result.lists * list_width ≤ length lists.new) × (result.sections ≡ st.sections) × (result.number ≡ 0 → 0 < result.depth) }
{
    let a = begin_list(events, stack, lists, m, st);
    if a.number != 0 {
        return a;
    }
    let b = begin_term(events, stack, m, a);
    if b.number != 0 {
        return b;
    }
    events::enter(events, stack, b, container_node(text, m, line))
}

// ---- Exits

// A list that is open inside the container ends with it.
fn close_inner(events: &mut [u32], stack: &[usize], lists: &[u64], pos: u32, st: St) -> St
    requires { Fits st events.old stack.now × (st.lists * list_width ≤ length lists.now) }
    ensures by_index { (v : List ℕ) → view result events.new stack.now lists.now v ≡ close_inner pos (view st events.old stack.now lists.now v) }
    ensures fits { Fits result events.new stack.now × (result.lists * list_width ≤ length lists.now) × (result.sections ≡ st.sections) }
{
    if st.lists == 0 {
        return st;
    }
    let o = lists::last_list(lists, st);
    if o.depth != st.depth {
        return st;
    }
    let mut r = st;
    r.blank = false;
    r.loose = false;
    lists::close_list(events, stack, lists, pos, r)
}

// The term of the item at stack place d, the list that is open inside, the Exit.
pub fn close_container(
    events: &mut [u32],
    stack: &mut [usize],
    lists: &[u64],
    m: Met,
    d: usize,
    st: St,
) -> St
    requires { Fits st events.old stack.old × (st.lists * list_width ≤ length lists.now) }
    ensures by_index { (v : List ℕ) → view result events.new stack.new lists.now v ≡ close_container m d (view st events.old stack.old lists.now v) }
    ensures fits { Fits result events.new stack.new × (result.lists * list_width ≤ length lists.now) × (result.sections ≡ st.sections) }
{
    let a = terms::settle_term(events, stack, m, d, st);
    if a.number != 0 {
        return a;
    }
    let b = close_inner(events, stack, lists, m.from, a);
    if b.number != 0 {
        return b;
    }
    events::exit(events, stack, b, m.from, m.to)
}
