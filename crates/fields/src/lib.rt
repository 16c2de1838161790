// What a record of each node holds, its widths and its ranges, said once for the writer, the reader and their definition
// (RULES E3 to E8, N3, N6, N7).
#![tactic(auto)]

ghost use Rattle.std.specs.Prelude.{◌≡◌, ◌<◌, ◌≤◌, map};
ghost use Rattle.std.specs.List.{list_all};
ghost use Rattle.fields.specs.Fields.{offset, is_listed, row_of, pairs_of, width_of, is_bullet, is_type, in_range, in_order, is_ranged, size_of};
ghost use Rattle.fields.specs.Numbers.{field_num, pair_num};

use events::Event;

// The bytes of an offset; the largest that they hold is `events::LARGEST`.
pub const OFFSET: usize = 3;

// What a body word is.
#[derive(Clone, Copy, Debug, PartialEq, Eq)]
pub enum Field {
    Nothing,
    Offset,
    Flag,
    Bullet,
    // numbering x 4 + style
    ListType,
    // half a value
    Half,
    Level,
    Alignment,
}

use Field::{Alignment, Bullet, Flag, Half, Level, ListType, Nothing, Offset};

// Whether a role and node are listed: Enter and Exit of a node, an Inline, an Atom of the three.
#[tactic(auto, unfolding(crate::specs::Fields::within, crate::specs::Fields::is_listed))]
pub fn is_listed(role: u32, node: u32) -> bool
    ensures { result ≡ is_listed role node }
{
    match role {
        events::ENTER | events::EXIT => matches!(node, events::DOCUMENT..=events::CODE_BLOCK),
        events::INLINE => node == 0,
        events::ATOM => matches!(node, events::BLANKLINE..=events::THEMATIC_BREAK),
        _ => false,
    }
}

// What the four body words of an event are: nothing in an Inline or an Atom.
#[tactic(auto, unfolding(crate::specs::Fields::within, crate::specs::Fields::fields, crate::specs::Fields::field_of))]
pub fn row_of(role: u32, node: u32) -> [Field; 4]
    ensures { map field_num result ≡ row_of role node }
{
    if !matches!(role, events::ENTER | events::EXIT) {
        return [Nothing; 4];
    }
    match node {
        events::DIV | events::FOOTNOTE | events::LINK_DEFINITION | events::CODE_BLOCK => {
            [Offset, Offset, Nothing, Nothing]
        }
        events::UNORDERED | events::TASK_LIST => [Flag, Bullet, Nothing, Nothing],
        events::ORDERED => [Flag, ListType, Half, Half],
        events::DESCRIPTION_LIST | events::TASK_ITEM | events::TABLE_ROW => {
            [Flag, Nothing, Nothing, Nothing]
        }
        events::SECTION => [Offset, Nothing, Nothing, Nothing],
        events::HEADING => [Level, Flag, Offset, Nothing],
        events::TABLE_CELL => [Alignment, Nothing, Nothing, Nothing],
        _ => [Nothing; 4],
    }
}

// Each body word of an event, with what it is.
pub fn body_of(x: Event) -> [(Field, u32); 4]
    ensures { map pair_num result ≡ pairs_of x }
{
    let [a, b, c, d] = row_of(x.role, x.node);
    [(a, x.a), (b, x.b), (c, x.c), (d, x.d)]
}

fn is_bullet(x: u32) -> bool
    ensures { result ≡ is_bullet x }
{
    matches!(x, 42 | 43 | 45)
}

// Numbering 1 to 5 and style 0 to 2.
#[tactic(auto, unfolding(crate::specs::Fields::within))]
fn is_type(x: u32) -> bool
    ensures { result ≡ is_type x }
{
    matches!(x, 4..=22) && x % 4 != 3
}

impl Field {
    // The bytes of a field.
    #[tactic(auto, unfolding(crate::specs::Fields::width_of))]
    pub fn width(self) -> usize
        ensures value { result ≡ width_of offset (field_num self) }
        ensures few { result ≤ 4 }
    {
        match self {
            Nothing => 0,
            Offset => OFFSET,
            Half => 4,
            Level => 2,
            Flag | Bullet | ListType | Alignment => 1,
        }
    }

    // Whether a word is in a field's range, where `most` is the largest offset.
    #[tactic(auto, unfolding(crate::specs::Fields::within, crate::specs::Fields::in_range))]
    pub fn holds(self, most: u32, x: u32) -> bool
        ensures { result ≡ in_range most (field_num self) x }
    {
        match self {
            Nothing => x == 0,
            Offset => x <= most,
            Flag => x <= 1,
            Bullet => is_bullet(x),
            ListType => is_type(x),
            Half => true,
            Level => matches!(x, 1..=65535),
            Alignment => x <= 3,
        }
    }
}

// A body's pair of offsets is in order.
fn in_order(x: Event) -> bool
    ensures { result ≡ in_order x }
{
    !matches!(row_of(x.role, x.node), [Offset, Offset, ..]) || x.a <= x.b
}

// Whether each body word is in its range.
fn holds_body(most: u32, words: &[(Field, u32)]) -> bool
    ensures { result ≡ list_all (λ p. in_range most (field_num p.0) p.1) words.now }
{
    words.iter().all(|(f, w)| f.holds(most, *w))
}

// Every word of an event is in its range.
#[tactic(auto, unfolding(crate::specs::Fields::is_ranged))]
pub fn is_ranged(most: u32, x: Event) -> bool
    ensures { result ≡ is_ranged most x }
{
    x.start <= x.end && Offset.holds(most, x.end) && holds_body(most, &body_of(x)) && in_order(x)
}

// The bytes of a record: kind, start, end, body.
#[tactic(auto, unfolding(crate::specs::Fields::size_of))]
pub fn size_of(role: u32, node: u32) -> usize
    ensures { result ≡ size_of offset role node }
{
    let [a, b, c, d] = row_of(role, node);
    1 + OFFSET + OFFSET + a.width() + b.width() + c.width() + d.width()
}
