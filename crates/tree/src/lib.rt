// The tree: blocks and containers within each other (RULES H1, P1).
#![tactic(auto)]

ghost use Rattle.std.specs.Prelude.{◌≡◌, List, ℕ, ◌%◌, ◌≤◌, length, get_or};
ghost use Rattle.lines.specs.Lines.{spans_of};
ghost use Rattle.events.specs.Names.{deepest};
ghost use Rattle.events.specs.View.{view, Fits, Stacks};
ghost use Rattle.walk.specs.Bounds.{Near, Bounded};
ghost use Rattle.walk.specs.Tree.{plain_of, container_at, block_of, blocks_at};

use events::St;
use measure::Measured;
use walk::{Limits, Met};

// A block that is no container: an atom, a table or a leaf.
fn plain(
    text: &[u8],
    lines: &[u32],
    events: &mut [u32],
    stack: &mut [usize],
    levels: &mut [usize],
    m: Met,
    line: u32,
    top: bool,
    st: St,
) -> St
    requires { Fits st events.old stack.old × (st.sections ≤ length levels.old) × (deepest ≤ length levels.old) × Bounded m line }
    ensures by_index { (l : List ℕ) → view result events.new stack.new l levels.new ≡ plain_of text.now top m line (spans_of lines.now) (view st events.old stack.old l levels.old) }
    ensures fits { Fits result events.new stack.new × (result.sections ≤ length levels.new) × (result.lists ≡ st.lists) }
{
    let kind = m.kind;
    let n = measure::kind_num(kind);
    if n <= measure::THEMATIC_BREAK {
        return events::push(
            events,
            st,
            walk::mark(events::ATOM, n as u32, m.start, m.end, 0),
        );
    }
    if n == measure::TABLE {
        return tables::table(text, lines, events, stack, m, st);
    }
    leaves::leaf(text, lines, events, stack, levels, m, line, top, st)
}

// A container: its lines without their prefixes are blocks, with one nesting less left.
#[cycle(block_blocks_container)]
fn container(
    text: &[u8],
    lines: &mut [u32],
    events: &mut [u32],
    stack: &mut [usize],
    lists: &mut [u64],
    levels: &mut [usize],
    lim: Limits,
    left: usize,
    m: Met,
    line: u32,
    st: St,
) -> St
    requires { Fits st events.old stack.old × Stacks st lists.old levels.old × Bounded m line }
    ensures levels_after { view result events.new stack.new lists.new levels.new ≡ container_at text.now lim left m line (spans_of lines.old) (view st events.old stack.old lists.old levels.old) }
    ensures fits { Fits result events.new stack.new × Stacks result lists.new levels.new }
{
    let kind = m.kind;
    if left == 0 {
        return events::refuse(st, 3);
    }
    let inside = left - 1;
    let mut s = st;
    s.spare = walk::least(inside, st.spare);
    let a = containers::open_container(text, events, stack, lists, m, line, s);
    if a.number != 0 {
        return a;
    }
    containers::strip_prefixes(text, lines, kind, (m.end - line) as usize);
    let b = blocks(
        text, lines, events, stack, lists, levels, lim, inside, false, a,
    );
    if b.number != 0 {
        return b;
    }
    containers::close_container(events, stack, lists, m, a.depth - 1, b)
}

// One block, whose lines these are.
#[cycle(block_blocks_container)]
fn block(
    text: &[u8],
    lines: &mut [u32],
    events: &mut [u32],
    stack: &mut [usize],
    lists: &mut [u64],
    levels: &mut [usize],
    lim: Limits,
    left: usize,
    top: bool,
    measured: Measured,
    st: St,
) -> St
    requires { Fits st events.old stack.old × Stacks st lists.old levels.old × (2 ≤ length lines.old) × (length lines.old % 2 ≡ 0) × Near (get_or lines.old 0 0) measured }
    ensures levels_after { view result events.new stack.new lists.new levels.new ≡ block_of text.now lim (container_at text.now lim left) left top measured (spans_of lines.old) (view st events.old stack.old lists.old levels.old) }
    ensures fits { Fits result events.new stack.new × Stacks result lists.new levels.new }
{
    let m = meet::met(lines, measured);
    let kind = m.kind;
    let line = lines[0];
    let at = meet::marker_start(m, line);
    let a = meet::ready(
        events,
        stack,
        lists,
        levels,
        lim,
        left,
        top,
        m,
        at,
        measured.looks,
        st,
    );
    if a.number != 0 {
        return a;
    }
    meet::skip_opening(text, lines, m);
    let inside = meet::inner(kind, lines.len());
    let from = inside.start;
    let to = inside.end;
    if walk::is_container(kind) {
        let b = container(
            text,
            &mut lines[from..to],
            events,
            stack,
            lists,
            levels,
            lim,
            left,
            m,
            line,
            a,
        );
        if b.number != 0 {
            return b;
        }
        return meet::done(m, st.at, a.words, b);
    }
    let c = plain(
        text,
        &lines[from..to],
        events,
        stack,
        levels,
        m,
        line,
        top,
        a,
    );
    if c.number != 0 {
        return c;
    }
    meet::done(m, st.at, a.words, c)
}

// The blocks of a container's lines, or of the document's.
#[cycle(block_blocks_container)]
pub fn blocks(
    text: &[u8],
    lines: &mut [u32],
    events: &mut [u32],
    stack: &mut [usize],
    lists: &mut [u64],
    levels: &mut [usize],
    lim: Limits,
    left: usize,
    top: bool,
    st: St,
) -> St
    requires { Fits st events.old stack.old × Stacks st lists.old levels.old }
    ensures levels_after { view result events.new stack.new lists.new levels.new ≡ blocks_at text.now lim left top (spans_of lines.old) (view st events.old stack.old lists.old levels.old) }
    ensures fits { Fits result events.new stack.new × Stacks result lists.new levels.new }
{
    let n = lines.len();
    let mut a = st;
    let mut at: usize = 0;
    while 2 <= n - at {
        let m = measure::measure(text, &lines[at..]);
        let to = at + 2 * (m.lines - m.given);
        let b = block(
            text,
            &mut lines[at..to],
            events,
            stack,
            lists,
            levels,
            lim,
            left,
            top,
            m,
            a,
        );
        if b.number != 0 {
            return b;
        }
        a = b;
        at = to;
    }
    a
}
