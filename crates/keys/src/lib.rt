// The keys of a set's elements: a class's is `class`, an id's is `id`, a comment has none (RULES J7).
#![tactic(auto)]

ghost use Rattle.std.specs.Prelude.{◌≡◌, MatchOption};
ghost use Rattle.sets.specs.Words.{listed_as};
ghost use Rattle.keys.specs.Keys.{key_by, has_key};
ghost use Rattle.keys.specs.View.{KeyOf};

use equals;
use sets::{Element, Kind};
use trim;

// The key of an element, where a class has the one key and an id the other; of a comment the bytes of its span.
pub fn key_by<'t>(bytes: &'t [u8], class: &'t [u8], id: &'t [u8], e: Element) -> &'t [u8]
    ensures { result.now ≡ key_by bytes.now class.now id.now (listed_as e) }
{
    if e.is(Kind::Class) {
        return class;
    }
    if e.is(Kind::Id) {
        return id;
    }
    trim::part(bytes, e.key.start as usize, e.key.end as usize)
}

// The key of an element; none of a comment.
pub fn key_of<'t>(bytes: &'t [u8], e: Element) -> Option<&'t [u8]>
    ensures { MatchOption result (KeyOf bytes.now (listed_as e) None) (λ k. KeyOf bytes.now (listed_as e) (Some k.now)) }
{
    if e.is(Kind::Comment) {
        return None;
    }
    Some(key_by(bytes, b"class", b"id", e))
}

pub fn has_key(bytes: &[u8], e: Element, key: &[u8]) -> bool
    ensures { result ≡ has_key bytes.now key.now (listed_as e) }
{
    match key_of(bytes, e) {
        Some(k) => equals::same(k, key),
        None => false,
    }
}
