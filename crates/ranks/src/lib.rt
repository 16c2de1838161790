// Which element shows a key, and the last element that has it: the places of a set's elements sorted by key, in lent words (RULES J9).
#![tactic(auto)]

ghost use Rattle.std.specs.Prelude.{◌≡◌, ℕ, ◌+◌, ◌-◌, ◌*◌, ◌≤◌, ◌<◌, length, drop, slice_index, MatchOption, true, false};
ghost use Rattle.sets.specs.Layout.{listed};
ghost use Rattle.keys.specs.Keys.{key_of};
ghost use Rattle.ranks.specs.Ranks.{ranks_of};
ghost use Rattle.ranks.specs.Sorting.{element_at, upto, left_first, merge, joined, last_by, worth, Arranged, Sorted};
ghost use Rattle.ranks.specs.View.{has_in, le_in, like_in, compare_in, less_in, KeyIn};

use equals;
use keys;
use sets::Elements;
use std::cmp::Ordering;

// Of so many places it is looked first whether all rise or all fall. With fewer, a look in vain costs too large a share.
const MANY: usize = 64;

// The elements of a set, and the bytes that hold their keys.
#[derive(Clone, Copy)]
struct Keyed<'t, 'e> {
    bytes: &'t [u8],
    elements: Elements<'e>,
}

impl<'t> Keyed<'t, '_> {
    // The key of the element at place p, if it is there and has one.
    fn key(&self, p: u64) -> Option<&'t [u8]>
        ensures { MatchOption result (KeyIn self.now p None) (λ k. KeyIn self.now p (Some k.now)) }
    {
        keys::key_of(self.bytes, self.elements.get(p as usize)?)
    }

    // The order of places: first those without a key, then by key, and those of one key as they stand.
    fn compare(&self, p: u64, q: u64) -> Ordering
        ensures { result ≡ compare_in self.now p q }
    {
        self.key(p).cmp(&self.key(q)).then(p.cmp(&q))
    }

    // Whether the elements at p and q have the same key.
    fn like(&self, p: u64, q: u64) -> bool
        ensures { result ≡ like_in self.now p q }
    {
        let Some(a) = self.key(p) else {
            return false;
        };
        let Some(b) = self.key(q) else {
            return false;
        };
        equals::same(a, b)
    }

    // Whether place p stands before place q.
    fn less(&self, p: u64, q: u64) -> bool
        ensures { result ≡ less_in self.now p q }
    {
        self.compare(p, q).is_lt()
    }

    // Whether the places fall all the way, or rise where `falls` is false.
    fn runs(&self, places: &[u64], falls: bool) -> bool
        ensures { result ≡ true → (k : ℕ) → k + 1 < length places.now → less_in self.now (slice_index places.now (k + 1)) (slice_index places.now k) ≡ falls }
    {
        for i in 1..places.len() {
            if self.less(places[i], places[i - 1]) != falls {
                return false;
            }
        }
        true
    }

    // Whether place q stands before place p, of which `key` is the key.
    fn precedes(&self, q: u64, p: u64, key: Option<&[u8]>) -> bool
        requires { MatchOption key (KeyIn self.now p None) (λ k. KeyIn self.now p (Some k.now)) }
        ensures { result ≡ less_in self.now q p }
    {
        self.key(q).cmp(&key).then(q.cmp(&p)).is_lt()
    }

    // Whether the next of two sorted parts, l from i on and r from j on, is that of l, of which `key` is the key. The first of r stands before the last of l.
    fn from_left(&self, l: &[u64], r: &[u64], i: usize, j: usize, key: Option<&[u8]>) -> bool
        requires left { i < length l.now }
        requires keyed { MatchOption key (KeyIn self.now (slice_index l.now i) None) (λ k. KeyIn self.now (slice_index l.now i) (Some k.now)) }
        requires apart { less_in self.now (slice_index r.now 0) (slice_index l.now (length l.now - 1)) ≡ true }
        ensures { result ≡ left_first (less_in self.now) (drop i l.now) (drop j r.now) }
    {
        if r.len() <= j {
            return true;
        }
        if j == 0 && i + 1 == l.len() {
            return false;
        }
        !self.precedes(r[j], l[i], key)
    }

    // Two sorted parts as one. The first of r stands before the last of l.
    fn merge(&self, l: &[u64], r: &[u64], to: &mut [u64])
        requires size { length l.now + length r.now ≡ length to.old }
        requires apart { less_in self.now (slice_index r.now 0) (slice_index l.now (length l.now - 1)) ≡ true }
        ensures { to.new ≡ merge (less_in self.now) l.now r.now }
    {
        let mut i: usize = 0;
        let mut j: usize = 0;
        while i < l.len() {
            let key = self.key(l[i]);
            while !self.from_left(l, r, i, j, key) {
                to[i + j] = r[j];
                j += 1;
            }
            to[i + j] = l[i];
            i += 1;
        }
        while j < r.len() {
            to[i + j] = r[j];
            j += 1;
        }
    }

    // Places in order, by halves; two halves that stand in order as they are stay so. What is left in `spare` does not matter.
    fn arrange(&self, places: &mut [u64], spare: &mut [u64])
        requires { length places.old ≤ length spare.old }
        ensures { Arranged (less_in self.now) places.old places.new }
    {
        let len = places.len();
        if len < 2 {
            return;
        }
        let m = len / 2;
        self.arrange(&mut places[..m], spare);
        self.arrange(&mut places[m..], spare);
        if !self.less(places[m], places[m - 1]) {
            return;
        }
        let halves = &places[..];
        self.merge(&halves[..m], &halves[m..], &mut spare[..len]);
        copy(&spare[..len], places);
    }

    // 0, 1, 2, .. in order. What is left in `spare` does not matter.
    fn sort(&self, places: &mut [u64], spare: &mut [u64])
        requires { length places.old ≤ length spare.old }
        ensures { Sorted (le_in self.now) (length places.old) places.new }
    {
        number(places);
        let len = places.len();
        if MANY <= len {
            let falls = self.less(places[len - 1], places[0]);
            if self.runs(places, falls) {
                if falls {
                    places.reverse();
                }
                return;
            }
        }
        self.arrange(places, spare);
    }

    // Whether sorted place i has the key of the one before it.
    fn joined(&self, places: &[u64], i: usize) -> bool
        requires { i < length places.now }
        ensures { result ≡ joined (like_in self.now) places.now i }
    {
        0 < i && self.like(places[i - 1], places[i])
    }

    // The last place of the key of sorted place i, `last` being that of the next one.
    fn last_by(&self, places: &[u64], i: usize, last: u64) -> u64
        requires { i < length places.now }
        ensures { result ≡ last_by (like_in self.now) places.now i last }
    {
        if i + 1 < places.len() && self.joined(places, i + 1) {
            last
        } else {
            places[i]
        }
    }

    // What is told of sorted place i.
    fn worth(&self, places: &[u64], i: usize, last: u64) -> u64
        requires { (i < length places.now) × (last < length places.now) }
        ensures { result ≡ worth (like_in self.now) places.now (has_in self.now) i last }
    {
        if self.key(places[i]).is_none() || self.joined(places, i) {
            return 0;
        }
        last + 1
    }

    // The sorted places from the back: each run of one key ends with its last place, and begins with the first.
    fn mark(&self, places: &[u64], ranks: &mut [u64])
        requires { (length ranks.old ≡ self.now.elements.count) × Sorted (le_in self.now) self.now.elements.count places.now }
        ensures { ranks.new ≡ ranks_of self.now.bytes.now (listed self.now.elements.count self.now.elements.words.now) }
    {
        let mut last: u64 = 0;
        for i in (0..places.len()).rev() {
            last = self.last_by(places, i, last);
            let rank = self.worth(places, i, last);
            ranks[places[i] as usize] = rank;
        }
    }
}

// Words copied one by one: `copy_from_slice` would make the archive ask for `memmove`.
fn copy(from: &[u64], to: &mut [u64])
    requires { length from.now ≡ length to.old }
    ensures { to.new ≡ from.now }
{
    for i in 0..to.len() {
        to[i] = from[i];
    }
}

// 0, 1, 2, ..
fn number(places: &mut [u64])
    ensures { places.new ≡ upto 0 (length places.old) }
{
    for (i, p) in places.iter_mut().enumerate() {
        *p = i as u64;
    }
}

// Of each element, in `ranks`: 0 where it shows no key, else one more than the place of the last element with its key. What is left in `places` does not
// matter.
pub fn rank(bytes: &[u8], elements: &[u64], places: &mut [u64], ranks: &mut [u64])
    requires { (length places.old ≡ length ranks.old) × (length ranks.old * 5 ≤ length elements.now) }
    ensures { ranks.new ≡ ranks_of bytes.now (listed (length ranks.old) elements.now) }
{
    let keyed = Keyed {
        bytes,
        elements: Elements {
            words: elements,
            count: ranks.len(),
        },
    };
    keyed.sort(places, ranks);
    keyed.mark(places, ranks);
}
