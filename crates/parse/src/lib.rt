// The entry point: a text to nested events with spans, in lent words (RULES R).
#![tactic(auto)]

ghost use Rattle.std.specs.Prelude.{◌≡◌, List, ℕ, ◌^◌, ◌<◌, length};
ghost use Rattle.lines.specs.Lines.{lines_of, spans_of};
ghost use Rattle.events.specs.Names.{largest};
ghost use Rattle.events.specs.View.{view};
ghost use Rattle.parse.specs.Shows.{Shows};
ghost use Rattle.parse.specs.Parse.{refused_as, limits, capped_of, parse_of};
ghost use Rattle.walk.specs.Document.{start, document_of};

use events::St;
use walk::Limits;

// The answer: number, position, event count and looks (R3).
#[derive(Clone, Copy)]
pub struct Answer {
    pub number: u64,
    pub position: u64,
    pub count: u64,
    pub looks: u64,
}

fn begin(nesting: usize) -> St
    ensures { ((e k l v : List ℕ) → view result e k l v ≡ start (length e) nesting) × (result.words ≡ 0) × (result.depth ≡ 0) × (result.lists ≡ 0) × (result.sections ≡ 0) }
{
    St {
        words: 0,
        depth: 0,
        lists: 0,
        sections: 0,
        attr: 0,
        blank: false,
        loose: false,
        spare: nesting,
        looks: 0,
        at: 0,
        number: 0,
    }
}

// The Document of these lines.
fn document(text: &[u8], lines: &mut [u32], events: &mut [u32], lim: Limits) -> St
    requires { (spans_of lines.old ≡ lines_of text.now) × (length text.now < 2 ^ 32) }
    ensures { Shows result events.new (document_of text.now lim (start (length events.old) lim.nesting)) }
{
    let mut stack = [0usize; events::MOST];
    let mut lists = [0u64; lists::LIST_ROOM];
    let mut levels = [0usize; events::DEEPEST];
    let a = events::enter(
        events,
        &mut stack,
        begin(lim.nesting),
        walk::node(events::DOCUMENT, 0, 0, 0, 0, 0, 0),
    );
    if a.number != 0 {
        return a;
    }
    let b = tree::blocks(
        text,
        lines,
        events,
        &mut stack,
        &mut lists,
        &mut levels,
        lim,
        lim.nesting,
        true,
        a,
    );
    if b.number != 0 {
        return b;
    }
    ends::close(events, &stack, &lists, text.len() as u32, b)
}

fn refused(number: u64, position: u64) -> Answer
    ensures { result ≡ refused_as number position }
{
    Answer {
        number,
        position,
        count: 0,
        looks: 0,
    }
}

// Limits over 32 count as 32: the stacks hold no more.
fn capped(lim: Limits) -> Limits
    ensures { result ≡ capped_of lim }
{
    Limits {
        nesting: walk::least(lim.nesting, events::DEEPEST),
        sections: walk::least(lim.sections, events::DEEPEST),
    }
}

// A text of at most `limit` bytes to events, with these limits of nesting and sections; over 32 they count as 32.
pub fn parse_within(
    text: &[u8],
    lines: &mut [u32],
    events: &mut [u32],
    limit: u32,
    lim: Limits,
) -> Answer
    ensures value { result ≡ (parse_of limit lim text.now lines.old events.old).answer }
    ensures lines_after { lines.new ≡ (parse_of limit lim text.now lines.old events.old).lines }
    ensures events_after { events.new ≡ (parse_of limit lim text.now lines.old events.old).events }
{
    match lines::split_lines(text, limit, lines) {
        Err(why) => refused(u64::from(why), 0),
        Ok(n) => {
            let st = document(text, &mut lines[..2 * n], events, capped(lim));
            events::clear(lines, 0);
            if st.number != 0 {
                events::clear(events, 0);
                return refused(st.number as u64, st.at as u64);
            }
            events::clear(events, st.words);
            Answer {
                number: 0,
                position: text.len() as u64,
                count: (st.words / events::WIDTH) as u64,
                looks: st.looks,
            }
        }
    }
}

// A text to events: at most 16,777,215 bytes, 32 containers and 32 sections within each other.
pub fn parse(text: &[u8], lines: &mut [u32], events: &mut [u32]) -> Answer
    ensures value { result ≡ (parse_of largest limits text.now lines.old events.old).answer }
    ensures lines_after { lines.new ≡ (parse_of largest limits text.now lines.old events.old).lines }
    ensures events_after { events.new ≡ (parse_of largest limits text.now lines.old events.old).events }
{
    parse_within(
        text,
        lines,
        events,
        events::LARGEST,
        Limits {
            nesting: events::DEEPEST,
            sections: events::DEEPEST,
        },
    )
}
