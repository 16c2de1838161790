// The final closings (RULES R16, S6, O5).
#![tactic(auto)]

ghost use Rattle.std.specs.Prelude.{◌≡◌, List, ℕ, ◌*◌, ◌≤◌, length};
ghost use Rattle.events.specs.Names.{list_width};
ghost use Rattle.events.specs.View.{view, Fits};
ghost use Rattle.walk.specs.Document.{close_lists, close_sections, close_all};

use events::St;

// The lists that are still open end at `pos`.
fn close_lists(events: &mut [u32], stack: &[usize], lists: &[u64], pos: u32, st: St) -> St
    requires { Fits st events.old stack.now × (st.lists * list_width ≤ length lists.now) }
    ensures by_index { (v : List ℕ) → view result events.new stack.now lists.now v ≡ close_lists pos st.lists (view st events.old stack.now lists.now v) }
    ensures fits { Fits result events.new stack.now × (result.sections ≡ st.sections) }
{
    let mut a = st;
    let mut left = st.lists;
    while 0 < left {
        let b = lists::close_list(events, stack, lists, pos, a);
        if b.number != 0 {
            return b;
        }
        a = b;
        left -= 1;
    }
    a
}

// The sections that are still open end at `pos`.
fn close_sections(events: &mut [u32], stack: &[usize], pos: u32, st: St) -> St
    requires { Fits st events.old stack.now }
    ensures by_index { (l v : List ℕ) → view result events.new stack.now l v ≡ close_sections pos st.sections (view st events.old stack.now l v) }
    ensures fits { Fits result events.new stack.now }
{
    let mut a = st;
    let mut more = st.sections;
    while 0 < more {
        let b = events::exit(events, stack, a, pos, pos);
        if b.number != 0 {
            return b;
        }
        a = b;
        more -= 1;
    }
    a
}

// The final closings: lists, sections, the Document; a refusal's position is here the text's length.
pub fn close(events: &mut [u32], stack: &[usize], lists: &[u64], end: u32, st: St) -> St
    requires { Fits st events.old stack.now × (st.lists * list_width ≤ length lists.now) }
    ensures by_index { (v : List ℕ) → st.sections ≤ length v → view result events.new stack.now lists.now v ≡ close_all end (view st events.old stack.now lists.now v) }
    ensures words_in_bounds { result.words ≤ length events.new }
{
    let mut c = st;
    c.at = end;
    let d = close_lists(events, stack, lists, end, c);
    if d.number != 0 {
        return d;
    }
    let e = close_sections(events, stack, end, d);
    if e.number != 0 {
        return e;
    }
    events::exit(events, stack, e, end, end)
}
