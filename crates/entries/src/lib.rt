// The lines of the listing, put piece by piece where their bytes go or are counted (RULES V1 to V4).
#![tactic(auto)]

ghost use Rattle.std.specs.Prelude.{◌≡◌, ◌+◌, ◌<◌, length};
ghost use Rattle.fields.specs.Numbers.{field_num};
ghost use Rattle.entries.specs.Text.{decimal_of};
ghost use Rattle.entries.specs.Entries.{node_name, atom_name, spaced, used, head_of, body_of, line_of, looks_line, refused_line};

use events::Event;
use fields::Field;
use sinks::Sink;

// ---- numbers

// The digit of a number below ten.
fn digit(x: u64) -> u8
    requires { x < 10 }
    ensures { result ≡ 48 + x }
{
    b'0' + x as u8
}

// A number in decimal: what stands before its last three digits, and those. An array of all digits would be copied by `memcpy`.
fn put_number<S: Sink>(sink: &mut S, x: u64)
    requires { S.fits sink.old (length (decimal_of x)) }
    ensures { S.took sink.old (decimal_of x) sink.new }
{
    if x < 10 {
        return sink.put(&[digit(x)]);
    }
    if x < 100 {
        return sink.put(&[digit(x / 10), digit(x % 10)]);
    }
    if 999 < x {
        put_number(sink, x / 1000);
        return sink.put(&[digit(x / 100 % 10), digit(x / 10 % 10), digit(x % 10)]);
    }
    sink.put(&[digit(x / 100), digit(x / 10 % 10), digit(x % 10)]);
}

// A number after a space.
fn put_spaced<S: Sink>(sink: &mut S, x: u64)
    requires { S.fits sink.old (length (spaced x)) }
    ensures { S.took sink.old (spaced x) sink.new }
{
    sink.put(b" ");
    put_number(sink, x);
}

// ---- a line

// A node's name, and of no node nothing: each is put as it is, since bytes of any number would be copied one by one.
fn put_node<S: Sink>(sink: &mut S, node: u32)
    requires { S.fits sink.old (length (node_name node)) }
    ensures { S.took sink.old (node_name node) sink.new }
{
    match node {
        events::DOCUMENT => sink.put(b"Document"),
        events::BLOCKQUOTE => sink.put(b"Blockquote"),
        events::DIV => sink.put(b"Div"),
        events::UNORDERED => sink.put(b"Unordered"),
        events::ORDERED => sink.put(b"Ordered"),
        events::TASK_LIST => sink.put(b"TaskList"),
        events::DESCRIPTION_LIST => sink.put(b"DescriptionList"),
        events::ITEM => sink.put(b"Item"),
        events::TASK_ITEM => sink.put(b"TaskItem"),
        events::DESCRIPTION_ITEM => sink.put(b"DescriptionItem"),
        events::FOOTNOTE => sink.put(b"Footnote"),
        events::TABLE => sink.put(b"Table"),
        events::TABLE_ROW => sink.put(b"TableRow"),
        events::SECTION => sink.put(b"Section"),
        events::PARAGRAPH => sink.put(b"Paragraph"),
        events::HEADING => sink.put(b"Heading"),
        events::DESCRIPTION_TERM => sink.put(b"DescriptionTerm"),
        events::TABLE_CELL => sink.put(b"TableCell"),
        events::CAPTION => sink.put(b"Caption"),
        events::LINK_DEFINITION => sink.put(b"LinkDefinition"),
        events::CODE_BLOCK => sink.put(b"CodeBlock"),
        _ => {}
    }
}

// An atom's name, likewise.
fn put_atom<S: Sink>(sink: &mut S, node: u32)
    requires { S.fits sink.old (length (atom_name node)) }
    ensures { S.took sink.old (atom_name node) sink.new }
{
    match node {
        events::BLANKLINE => sink.put(b"Blankline"),
        events::ATTRIBUTES => sink.put(b"Attributes"),
        events::THEMATIC_BREAK => sink.put(b"ThematicBreak"),
        _ => {}
    }
}

// Role and name.
fn put_head<S: Sink>(sink: &mut S, x: Event)
    requires { S.fits sink.old (length (head_of x)) }
    ensures { S.took sink.old (head_of x) sink.new }
{
    match x.role {
        events::INLINE => sink.put(b"I"),
        events::ATOM => {
            sink.put(b"A ");
            put_atom(sink, x.node);
        }
        events::ENTER => {
            sink.put(b"E ");
            put_node(sink, x.node);
        }
        _ => {
            sink.put(b"X ");
            put_node(sink, x.node);
        }
    }
}

// A body word, where the node uses it.
fn put_used<S: Sink>(sink: &mut S, f: Field, w: u32)
    requires { S.fits sink.old (length (used (field_num f) w)) }
    ensures { S.took sink.old (used (field_num f) w) sink.new }
{
    match f {
        Field::Nothing => {}
        _ => put_spaced(sink, w as u64),
    }
}

fn put_body<S: Sink>(sink: &mut S, x: Event)
    requires { S.fits sink.old (length (body_of x)) }
    ensures { S.took sink.old (body_of x) sink.new }
{
    for (f, w) in fields::body_of(x) {
        put_used(sink, f, w);
    }
}

// An event's line.
pub fn put_line<S: Sink>(sink: &mut S, x: Event)
    requires { S.fits sink.old (length (line_of x)) }
    ensures { S.took sink.old (line_of x) sink.new }
{
    if x.role == events::STALE {
        return;
    }
    put_head(sink, x);
    put_spaced(sink, x.start as u64);
    put_spaced(sink, x.end as u64);
    put_body(sink, x);
    sink.put(b"\n");
}

// The last line of a parse.
pub fn put_looks<S: Sink>(sink: &mut S, looks: u64)
    requires { S.fits sink.old (length (looks_line looks)) }
    ensures { S.took sink.old (looks_line looks) sink.new }
{
    sink.put(b"looks");
    put_spaced(sink, looks);
    sink.put(b"\n");
}

// The line of a refused parse.
pub fn put_refused<S: Sink>(sink: &mut S, number: u64, position: u64)
    requires { S.fits sink.old (length (refused_line number position)) }
    ensures { S.took sink.old (refused_line number position) sink.new }
{
    sink.put(b"refused");
    put_spaced(sink, number);
    sink.put(b" at");
    put_spaced(sink, position);
    sink.put(b"\n");
}
