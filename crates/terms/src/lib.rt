// The term of a description item: its first paragraph, moved before the details (RULES U3 to U6).
#![tactic(auto)]

ghost use Rattle.std.specs.Prelude.{◌≡◌, List, ℕ, ◌+◌, ◌≤◌, ◌<◌, eqb, length};
ghost use Rattle.classes.specs.Choice.{pick};
ghost use Rattle.markers.specs.Markers.{marker_num};
ghost use Rattle.events.specs.View.{view, Fits, Kept};
ghost use Rattle.walk.specs.Fields.{marker_in};
ghost use Rattle.walk.specs.Tree.{clear_term, detail_start, place_detail, move_term, term_of, settle_term};

use events::{
    ATOM, BLANKLINE, DESCRIPTION_ITEM, DESCRIPTION_TERM, ENTER, EXIT, PARAGRAPH, STALE, St,
};
use walk::Met;

// The Exit at word x becomes the term's; the empty term's Exit, before the item's Enter at word i, and the paragraph's Enter, after it, become Stale.
fn clear_term(events: &mut [u32], st: St, i: usize, x: usize)
    requires { (8 ≤ i) × (i + 16 ≤ st.words) × (x + 8 ≤ st.words) × (st.words ≤ length events.old) }
    ensures { (k l v : List ℕ) → view st events.new k l v ≡ clear_term i x (view st events.old k l v) }
{
    events::patch(events, st, x + events::NODE, DESCRIPTION_TERM);
    events::edit(events, st, i + events::WIDTH, walk::mark(STALE, 0, 0, 0, 0));
    events::edit(events, st, i - events::WIDTH, walk::mark(STALE, 0, 0, 0, 0));
}

// The details start where the event at word f does, or where the last event ends.
fn detail_start(events: &[u32], st: St, f: usize) -> u32
    requires { (8 ≤ st.words) × (st.words ≤ length events.now) }
    ensures { (k l v : List ℕ) → result ≡ detail_start f (view st events.now k l v) }
{
    if events::whole(st, f) {
        return events::word(events, st, f + events::START);
    }
    events::word(events, st, st.words - events::WIDTH + events::END)
}

// The item's Enter goes behind its term and the blank lines after it, to the word before f; the item is the open event at place d.
fn place_detail(events: &mut [u32], stack: &mut [usize], d: usize, i: usize, f: usize, st: St)
    requires { Fits st events.old stack.old × (d < st.depth) × (i + 16 ≤ f) × (f ≤ st.words) }
    ensures { (l v : List ℕ) → view st events.new stack.new l v ≡ place_detail d i f (view st events.old stack.old l v) }
{
    let pos = detail_start(events, st, f);
    moves::shift(events, st, i, f - (i + events::WIDTH));
    events::edit(
        events,
        st,
        f - events::WIDTH,
        walk::mark(ENTER, DESCRIPTION_ITEM, pos, pos, 0),
    );
    events::reopen(stack, st, d, f - events::WIDTH);
}

// The paragraph that ends at word x, the first child of the item at word i, becomes the term.
fn move_term(events: &mut [u32], stack: &mut [usize], d: usize, i: usize, x: usize, st: St)
    requires { Fits st events.old stack.old × (d < st.depth) × (8 ≤ i) × (i + 16 ≤ x) × (x + 8 ≤ st.words) }
    ensures { (l v : List ℕ) → view st events.new stack.new l v ≡ move_term d i x (view st events.old stack.old l v) }
{
    clear_term(events, st, i, x);
    let f = moves::find_other(events, st, ATOM, BLANKLINE, x + events::WIDTH);
    place_detail(events, stack, d, i, f, st);
}

// Where the first child of the item at word i is a paragraph, that is its term.
fn term(events: &mut [u32], stack: &mut [usize], d: usize, i: usize, st: St) -> St
    requires { Fits st events.old stack.old × (d < st.depth) }
    ensures by_index { (l v : List ℕ) → view result events.new stack.new l v ≡ term_of d i (view st events.old stack.old l v) }
    ensures fits { Fits result events.new stack.new × Kept st result }
{
    let w = st.words;
    if i < events::WIDTH {
        return events::refuse(st, 7);
    }
    if !events::whole(st, i) {
        return events::refuse(st, 7);
    }
    let child = i + events::WIDTH;
    if !events::whole(st, child) {
        return events::refuse(st, 7);
    }
    if !moves::is_at(&events[..w], child, ENTER, PARAGRAPH) {
        return st;
    }
    let x = moves::find(events, st, EXIT, PARAGRAPH, child + events::WIDTH);
    if !events::whole(st, x) {
        return events::refuse(st, 7);
    }
    move_term(events, stack, d, i, x, st);
    st
}

// A description item's term is known when it ends; the item is the open event at place d.
pub fn settle_term(events: &mut [u32], stack: &mut [usize], m: Met, d: usize, st: St) -> St
    requires { Fits st events.old stack.old }
    ensures by_index { (l v : List ℕ) → view result events.new stack.new l v ≡ pick (eqb (marker_num (marker_in m.kind)) 4) (settle_term d (view st events.old stack.old l v)) (view st events.old stack.old l v) }
    ensures fits { Fits result events.new stack.new × Kept st result }
{
    let kind = m.kind;
    if markers::marker_num(walk::marker_in(kind)) != 4 {
        return st;
    }
    if st.depth <= d {
        return events::refuse(st, 7);
    }
    let i = events::open_at(stack, st, d);
    term(events, stack, d, i, st)
}
