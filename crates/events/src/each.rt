// The events of lent words, one after another.
ghost use Rattle.std.specs.Prelude.{◌≡◌, ◌-◌, ◌/◌, length};
ghost use Rattle.std.specs.Iterator.{at_most};
ghost use Rattle.events.specs.Events.{width};
ghost use Rattle.events.specs.Each.{each_gives};

use crate::{Event, WIDTH};

// The whole events of words from one on, each with its index.
#[derive(Clone, Copy)]
pub struct Each<'a> {
    pub words: &'a [u32],
    pub next: usize,
}

impl Iterator for Each<'_> {
    type Item = (usize, Event);

    ghost next_gives = { each_gives };

    ghost remaining = { λ s. at_most (length s.words.now / width - s.next) };

    fn next(&mut self) -> Option<(usize, Event)> {
        let i = self.next;
        if self.words.len() / WIDTH <= i {
            return None;
        }
        self.next += 1;
        Some((i, crate::event_at(self.words, i * WIDTH)))
    }
}

// All whole events of words.
pub fn in_turn(words: &[u32]) -> Each<'_>
    ensures words { result.words.now ≡ words.now }
    ensures first { result.next ≡ 0 }
{
    Each { words, next: 0 }
}
