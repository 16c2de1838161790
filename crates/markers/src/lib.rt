// List markers: the answer carries the list's kind and, for an ordered list, its numbering, style and value (RULES M1, K10 to K12, L3 to L8).
#![tactic(auto)]

ghost use Rattle.std.specs.Prelude.{◌≡◌};
ghost use Rattle.numbers.specs.Numbers.{nonzero};
ghost use Rattle.markers.specs.Markers.{marker_num, style_of, style_num, ends_at, numbered_of, ordered_of, box_mark, task_at, bullet_ends, bullet_of, description_of, marker_of};
ghost use Rattle.markers.specs.Lists.{letter_rank, ambiguity_of, follows_of, one_more, by_letters, ordered_on, continues_of};

use classes;
use numbers;
use numbers::Numbering;

// How an ordered marker is written: `1.`, `1)`, `(1)`.
#[derive(Clone, Copy, Debug, PartialEq, Eq)]
pub enum Style {
    Period,
    Paren,
    ParenParen,
}

// A style's number (E7).
impl From<Style> for u8 {
    ghost from_gives = { λ s n. n ≡ style_num s };

    fn from(s: Style) -> u8 {
        match s {
            Style::Period => 0,
            Style::Paren => 1,
            Style::ParenParen => 2,
        }
    }
}

// The kind of list that a marker begins (K10 to K12, K15).
#[derive(Clone, Copy, Debug, PartialEq, Eq)]
pub enum Marker {
    // of a block that is no item; it stays since the definition `type_of` of lists reads words that no list has as it. A marker that was read is never this
    Nothing,
    // a bullet's byte
    Unordered(u8),
    Ordered {
        numbering: Numbering,
        style: Style,
        value: u64,
    },
    // a bullet's byte, followed by a box
    Task(u8),
    Description,
}

// A marker and how many bytes it has.
#[derive(Clone, Copy, Debug, PartialEq, Eq)]
pub struct Marked {
    pub marker: Marker,
    pub len: usize,
}

// A number as a list counts it.
#[derive(Clone, Copy, Debug, PartialEq, Eq)]
pub struct Number {
    pub numbering: Numbering,
    pub value: u64,
}

// The two markers as they are read where a list goes on with an item.
#[derive(Clone, Copy, Debug, PartialEq, Eq)]
pub struct Continued {
    pub prev: Marker,
    pub next: Marker,
}

// The style that a byte after the number gives, if any.
#[tactic(auto, unfolding(crate::specs::Markers::style_of))]
pub fn style_of(paren: bool, b: u8) -> Option<Style>
    ensures { result ≡ style_of paren b }
{
    match (paren, b) {
        (true, b')') => Some(Style::ParenParen),
        (false, b')') => Some(Style::Paren),
        (false, b'.') => Some(Style::Period),
        _ => None,
    }
}

// A marker's number, in the order of `Marker`; 0: there is none.
pub fn marker_num(m: Marker) -> u8
    ensures { result ≡ marker_num m }
{
    match m {
        Marker::Nothing => 0,
        Marker::Unordered(_) => 1,
        Marker::Ordered { .. } => 2,
        Marker::Task(_) => 3,
        Marker::Description => 4,
    }
}

// Whitespace or the end.
#[tactic(auto, unfolding(crate::specs::Markers::ends_at))]
pub fn ends(t: &[u8], e: usize) -> bool
    ensures { result ≡ ends_at t.now e }
{
    match t.get(e) {
        Some(b) => classes::is_space(*b),
        None => true,
    }
}

// The marker whose number starts at `from`, after an opening paren or not: the number, its style, whitespace or the end.
#[tactic(auto, unfolding(crate::specs::Markers::numbered_of, crate::specs::Markers::begun_of))]
fn numbered(t: &[u8], from: usize, paren: bool) -> Option<Marked>
    ensures { result ≡ numbered_of t.now from paren }
{
    let numbering = numbers::begins(*t.get(from)?)?;
    let end = from + numbers::run(t, from, numbering);
    let style = style_of(paren, *t.get(end)?)?;
    if !ends(t, end + 1) {
        return None;
    }
    let value = numbers::value(&t[from..end], numbering);
    Some(Marked {
        marker: Marker::Ordered {
            numbering,
            style,
            value,
        },
        len: end + 1,
    })
}

// An ordered marker (M1).
#[tactic(auto, unfolding(crate::specs::Markers::ordered_of))]
pub fn ordered(t: &[u8]) -> Option<Marked>
    ensures { result ≡ ordered_of t.now }
{
    if classes::byte_at(t, 0) == b'(' {
        return numbered(t, 1, true);
    }
    numbered(t, 0, false)
}

// What a task's box may hold.
#[tactic(auto, unfolding(crate::specs::Markers::box_mark))]
fn box_mark(b: u8) -> bool
    ensures { result ≡ box_mark b }
{
    matches!(b, b' ' | b'x' | b'X')
}

// Whether a box follows the bullet and its space.
#[tactic(auto, unfolding(crate::specs::Markers::task_at))]
fn task_at(t: &[u8]) -> bool
    ensures { result ≡ task_at t.now }
{
    classes::byte_at(t, 2) == b'['
        && box_mark(classes::byte_at(t, 3))
        && classes::byte_at(t, 4) == b']'
        && ends(t, 5)
}

// Whether a space or the end of the text follows the bullet: a newline or a tab makes no item.
#[tactic(auto, unfolding(crate::specs::Markers::bullet_ends))]
fn bullet_ends(t: &[u8]) -> bool
    ensures { result ≡ bullet_ends t.now }
{
    matches!(t.get(1), None | Some(b' '))
}

#[tactic(auto, unfolding(crate::specs::Markers::bullet_of))]
fn bullet(t: &[u8]) -> Option<Marked>
    ensures { result ≡ bullet_of t.now }
{
    if !bullet_ends(t) {
        return None;
    }
    let b = classes::byte_at(t, 0);
    if task_at(t) {
        return Some(Marked {
            marker: Marker::Task(b),
            len: 5,
        });
    }
    Some(Marked {
        marker: Marker::Unordered(b),
        len: 1,
    })
}

#[tactic(auto, unfolding(crate::specs::Markers::description_of))]
fn description(t: &[u8]) -> Option<Marked>
    ensures { result ≡ description_of t.now }
{
    if !ends(t, 1) {
        return None;
    }
    Some(Marked {
        marker: Marker::Description,
        len: 1,
    })
}

// The list marker at the start of t, if there is one.
#[tactic(auto, unfolding(crate::specs::Markers::marker_of))]
pub fn read_marker(t: &[u8]) -> Option<Marked>
    ensures { result ≡ marker_of t.now }
{
    match classes::byte_at(t, 0) {
        b if classes::is_bullet(b) => bullet(t),
        b':' => description(t),
        _ => ordered(t),
    }
}

// The place in the alphabet of the one letter that is a roman number of this value, if one is.
#[tactic(auto, unfolding(crate::specs::Lists::letter_rank))]
fn letter_rank(value: u64) -> Option<u64>
    ensures { result ≡ nonzero (letter_rank value) }
{
    match value {
        1 => Some(9),
        5 => Some(22),
        10 => Some(24),
        50 => Some(12),
        100 => Some(3),
        500 => Some(4),
        1000 => Some(13),
        _ => None,
    }
}

// How else a number can be read: a roman one whose value a single letter has, as that letter (L5).
#[tactic(auto, unfolding(crate::specs::Lists::ambiguity_of, crate::specs::Lists::also_of))]
pub fn ambiguity_of(n: Number) -> Option<Number>
    ensures { result ≡ ambiguity_of n.numbering n.value }
{
    let numbering = match n.numbering {
        Numbering::RomanLower => Numbering::AlphaLower,
        Numbering::RomanUpper => Numbering::AlphaUpper,
        _ => return None,
    };
    let value = letter_rank(n.value)?;
    Some(Number { numbering, value })
}

// Whether w is one more than v, which may be the largest number there is.
fn follows(v: u64, w: u64) -> bool
    ensures { result ≡ follows_of v w }
{
    v.checked_add(1) == Some(w)
}

// Two numbers of one style: the list goes on where they are of one numbering and the second is one more than the first.
fn one_more(a: Number, style: Style, b: Number) -> Option<Continued>
    ensures { result ≡ one_more a.numbering a.value style b.numbering b.value }
{
    if a.numbering == b.numbering && follows(a.value, b.value) {
        return Some(Continued {
            prev: Marker::Ordered {
                numbering: a.numbering,
                style,
                value: a.value,
            },
            next: Marker::Ordered {
                numbering: b.numbering,
                style,
                value: b.value,
            },
        });
    }
    None
}

// Numbers of one style and two numberings: first the old one is read as a letter, and only where it can't be, the new one.
#[tactic(auto, unfolding(crate::specs::Lists::by_letters, crate::specs::Lists::by_next))]
fn by_letters(a: Number, style: Style, b: Number) -> Option<Continued>
    ensures { result ≡ by_letters a.numbering a.value style b.numbering b.value (ambiguity_of a.numbering a.value) }
{
    if let Some(a) = ambiguity_of(a) {
        return one_more(a, style, b);
    }
    one_more(a, style, ambiguity_of(b)?)
}

// Whether a list whose last item has the marker `prev` goes on with the item `next`, and the two markers as they are then read (L3 to L8).
#[tactic(auto, unfolding(crate::specs::Lists::continues_of, crate::specs::Lists::unordered_on, crate::specs::Lists::task_on, crate::specs::Lists::description_on, crate::specs::Lists::ordered_on))]
pub fn continues(prev: Marker, next: Marker) -> Option<Continued>
    ensures { result ≡ continues_of prev next }
{
    match (prev, next) {
        (Marker::Unordered(a), Marker::Unordered(b)) if a == b => Some(Continued { prev, next }),
        (Marker::Task(a), Marker::Task(b)) if a == b => Some(Continued { prev, next }),
        (Marker::Description, Marker::Description) => Some(Continued { prev, next }),
        (
            Marker::Ordered {
                numbering: n,
                style: s,
                value: v,
            },
            Marker::Ordered {
                numbering: m,
                style: t,
                value: w,
            },
        ) if s == t => {
            if n == m {
                return Some(Continued { prev, next });
            }
            by_letters(
                Number {
                    numbering: n,
                    value: v,
                },
                s,
                Number {
                    numbering: m,
                    value: w,
                },
            )
        }
        _ => None,
    }
}
