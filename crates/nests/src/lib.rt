// Nesting: what is wrong with an event where it stands, and what is open after it (RULES N5 to N8).
#![tactic(auto)]

ghost use Rattle.std.specs.Prelude.{◌≡◌, Bool, true, ℕ, ◌≤◌};
ghost use Rattle.events.specs.Names.{most};
ghost use Rattle.events.specs.declared.Event.{Event};
ghost use Rattle.refusals.specs.Numbers.{number_of};
ghost use Rattle.nests.specs.Nesting.{same_body};
ghost use Rattle.nests.specs.Faults.{IsFault};

use events::{Event, MOST};
use refusals::{Refusal, Refused};

// Where events stand: what is given at a place.
pub trait Places {
    ghost get: { Self → ℕ → Event };

    ghost whole: { Self → ℕ → Bool };

    fn event(&self, at: usize) -> Event
        requires { whole self.now at ≡ true }
        ensures { result ≡ get self.now at };
}

// An Exit has its Enter's node and body.
#[tactic(auto, unfolding(crate::specs::Nesting::same_body))]
fn same_body(x: Event, y: Event) -> bool
    ensures { result ≡ same_body x y }
{
    x.node == y.node && x.a == y.a && x.b == y.b && x.c == y.c && x.d == y.d
}

// What was refused, at a place in memory.
pub fn refused(why: Refusal, at: usize) -> Refused
    ensures { (result.why ≡ why) × (result.at ≡ at) }
{
    Refused { why, at: at as u64 }
}

// Where the open events stand, the innermost last; how many there are; and whether Document has closed.
#[derive(Clone, Copy)]
pub struct Nest {
    pub room: [usize; MOST],
    pub depth: usize,
    pub done: bool,
    ghost within: { depth ≤ most },
}

impl Nest {
    ghost use Rattle.nests.specs.Nesting.{outside, is_nested, after_of, fault_of};
    ghost use Rattle.nests.specs.View.{open_by, nest_by, innermost_of, Held, Admits};

    // Before the first event.
    #[tactic(auto, unfolding(crate::specs::View::nest_by, crate::specs::View::open_by))]
    pub fn new() -> Nest
        ensures none { result.depth ≡ 0 }
        ensures outside { (get : ℕ → Event) → nest_by get result ≡ outside }
    {
        Nest {
            room: [0; MOST],
            depth: 0,
            done: false,
        }
    }

    // The innermost open Enter.
    #[tactic(auto, unfolding(crate::specs::View::open_by))]
    fn innermost<P: Places>(&self, places: &P) -> Option<Event>
        requires { Held (P.whole places.now) self.now.room self.now.depth }
        ensures { result ≡ innermost_of (open_by (P.get places.now) self.now.room self.now.depth) }
    {
        if self.depth == 0 {
            return None;
        }
        Some(places.event(self.room[self.depth - 1]))
    }

    // Whether x may come next.
    #[tactic(auto, using(crate::proofs::NestLaws::open_length), unfolding(crate::specs::View::nest_by, crate::specs::Nesting::is_nested, crate::specs::Nesting::closes))]
    fn may_come<P: Places>(&self, places: &P, x: Event) -> bool
        requires { Held (P.whole places.now) self.now.room self.now.depth }
        ensures { result ≡ is_nested (nest_by (P.get places.now) self.now) x }
    {
        if self.done {
            return false;
        }
        match x.role {
            events::ENTER if self.depth == MOST => false,
            events::ENTER if x.node == events::DOCUMENT => self.depth == 0,
            events::EXIT => self.innermost(places).is_some_and(|top| same_body(top, x)),
            _ => self.depth != 0,
        }
    }

    // What is wrong with an event that is not Stale and stands at `at`.
    #[tactic(auto, unfolding(crate::specs::Nesting::fault_of))]
    pub fn fault<P: Places>(&self, places: &P, x: Event, at: usize) -> Result<(), Refused>
        requires { Held (P.whole places.now) self.now.room self.now.depth }
        ensures { IsFault result (fault_of (nest_by (P.get places.now) self.now) x) at }
    {
        if x.role == events::STALE && x.node == 0 {
            return Err(refused(Refusal::OutOfRange, at));
        }
        if !fields::is_listed(x.role, x.node) {
            return Err(refused(Refusal::NotListed, at));
        }
        if !fields::is_ranged(events::LARGEST, x) {
            return Err(refused(Refusal::OutOfRange, at));
        }
        if !self.may_come(places, x) {
            return Err(refused(Refusal::BadNesting, at));
        }
        Ok(())
    }

    // An event that has no fault has come, at `at`.
    #[tactic(auto, unfolding(crate::specs::View::nest_by, crate::specs::Nesting::after_of))]
    pub fn follow(&mut self, x: Event, at: usize)
        requires { Admits self.old x }
        ensures by_index { (get : ℕ → Event) → get at ≡ x → nest_by get self.new ≡ after_of (nest_by get self.old) x }
        ensures held { (fit : ℕ → Bool) → fit at ≡ true → Held fit self.old.room self.old.depth → Held fit self.new.room self.new.depth }
    {
        match x.role {
            events::ENTER => {
                self.room[self.depth] = at;
                self.depth += 1;
            }
            events::EXIT => {
                self.depth -= 1;
                self.done = self.depth == 0;
            }
            _ => {}
        }
    }
}
