// What changed between two editions of a text, in whole top-level blocks (RULES Z). Each text is parsed again in lent words, and its events held to those given.
#![tactic(auto)]

ghost use Rattle.std.specs.Prelude.{◌≡◌, false, ◌+◌, ◌*◌, ◌/◌, ◌≤◌, ◌<◌, eqb, length, take, drop, replicate};
ghost use Rattle.classes.specs.Choice.{both};
ghost use Rattle.events.specs.Events.{width};
ghost use Rattle.events.specs.Names.{largest};
ghost use Rattle.events.specs.Pack.{is_stale, event_in, all_of, live_of, live_in};
ghost use Rattle.parse.specs.Parse.{limits};
ghost use Rattle.tops.specs.Tops.{starts_of};
ghost use Rattle.tops.specs.Places.{events_behind, places_of, put_in, starts_at};
ghost use Rattle.editions.specs.Editions.{stray, same_event, against_of, part_in, refused_in, changed_of, change_of, older_part, newer_part, changed_part};
ghost use Rattle.editions.specs.View.{same_front, wiped_of, zeroed_of, left_of, front_at, back_at, Held, Rechecks, Settled};

use equals;
use events::{Event, WIDTH};
use tops::Walk;
use trim;
use walk::Limits;

// The two texts.
#[derive(Clone, Copy)]
pub enum Which {
    Older,
    Newer,
}

// What is wrong with an edition: a refusal and its position; number 0: nothing.
#[derive(Clone, Copy)]
pub struct Fault {
    pub number: u64,
    pub position: u64,
}

// The answer: the refusal's number and position, both 0 where there is none; the text that was refused or that the part is of; the part's bytes.
#[derive(Clone, Copy)]
pub struct Change {
    pub number: u64,
    pub position: u64,
    pub which: Which,
    pub start: u64,
    pub end: u64,
}

// ---- an edition's events must be its parse's

// Whether two words are equal and what was compared before is too.
fn also(x: u32, y: u32, before: bool) -> bool
    ensures { result ≡ both (eqb x y) before }
{
    if x != y {
        return false;
    }
    before
}

// All words are compared, without an early exit: the back end takes them at once.
fn same_event(x: Event, y: Event) -> bool
    ensures { result ≡ same_event x y }
{
    let d = x.d == y.d;
    let c = also(x.c, y.c, d);
    let b = also(x.b, y.b, c);
    let a = also(x.a, y.a, b);
    let end = also(x.end, y.end, a);
    let start = also(x.start, y.start, end);
    let node = also(x.node, y.node, start);
    also(x.role, y.role, node)
}

// The first event from index `from` on that is not Stale, or how many events there are.
fn live_from(words: &[u32], from: usize) -> usize
    requires { from ≤ length words.now / width }
    ensures { (result ≤ length words.now / width) × (result < length words.now / width → is_stale (event_in words.now (result * width)) ≡ false) × (live_of (events_behind words.now from) ≡ live_of (events_behind words.now result)) }
{
    let total = words.len() / WIDTH;
    let mut i = from;
    while i < total {
        if !events::is_stale(events::event_at(words, i * WIDTH)) {
            return i;
        }
        i += 1;
    }
    i
}

// Refusal 15, at the index of an event.
fn stray(i: usize) -> Fault
    ensures { result ≡ stray i }
{
    Fault {
        number: 15,
        position: i as u64,
    }
}

// The events given, from index `from` on, beside those of the parse.
fn against(given: &[u32], from: usize, parsed: &[u32]) -> Fault
    requires { from ≤ length given.now / width }
    ensures { result ≡ against_of from (events_behind given.now from) (live_in parsed.now) }
{
    let total = given.len() / WIDTH;
    let count = parsed.len() / WIDTH;
    let mut i = from;
    let mut j = live_from(parsed, 0);
    while i < total {
        let x = events::event_at(given, i * WIDTH);
        if events::is_stale(x) {
            i += 1;
            continue;
        }
        if count <= j {
            return stray(i);
        }
        if !same_event(x, events::event_at(parsed, j * WIDTH)) {
            return stray(i);
        }
        i += 1;
        j = live_from(parsed, j + 1);
    }
    if j < count {
        return stray(i);
    }
    Fault {
        number: 0,
        position: 0,
    }
}

// Whether the events given begin with the parse's, and how many blocks begin in these.
#[derive(Clone, Copy)]
pub struct Along {
    pub alike: bool,
    pub blocks: usize,
}

// The two lists side by side, and the places where the blocks begin. No early exit: the lists are alike as a rule, and so the back end takes an event's words at once.
fn side_by_side(given: &[u32], parsed: &[u32], out: &mut [u32]) -> Along
    requires { length parsed.now ≤ length given.now }
    ensures alike_value { (result.alike ≡ same_front (all_of given.now) (all_of parsed.now)) × (result.blocks ≡ length (places_of (all_of parsed.now))) }
    ensures out_after { out.new ≡ put_in 0 (places_of (all_of parsed.now)) out.old }
{
    let count = parsed.len() / WIDTH;
    let mut i: usize = 0;
    let mut alike = true;
    let mut w = Walk {
        nodes: 0,
        blocks: 0,
    };
    while i < count {
        let x = events::event_at(given, i * WIDTH);
        let y = events::event_at(parsed, i * WIDTH);
        if !same_event(x, y) {
            alike = false;
        }
        w = tops::note(w, y, out);
        i += 1;
    }
    Along {
        alike,
        blocks: w.blocks,
    }
}

// Zeros in the first n words.
fn zero(words: &mut [u32], n: usize)
    ensures { words.new ≡ zeroed_of n words.old }
{
    let m = walk::least(n, words.len());
    events::clear(&mut words[..m], 0);
}

// Zeros in place of a parse's events: it left zeros behind them.
fn wipe(events: &mut [u32], count: usize)
    ensures { events.new ≡ wiped_of count events.old }
{
    if events.len() / WIDTH <= count {
        events::clear(events, 0);
        return;
    }
    let n = (count + 1) * WIDTH;
    events::clear(&mut events[..n], 0);
}

// An edition parsed again: what is wrong with it; how many events there are to wipe, and how many words of places to zero.
#[derive(Clone, Copy)]
pub struct Rechecked {
    pub number: u64,
    pub position: u64,
    pub count: usize,
    pub blocks: usize,
}

// The events given beside those of the parse: side by side first, and one by one where they are not alike word for word. Where the parse's blocks begin is noted in the line words.
fn hold(given: &[u32], parsed: &[u32], lines: &mut [u32]) -> Rechecked
    ensures { Held given.now parsed.now lines.old result lines.new }
{
    let count = parsed.len() / WIDTH;
    if given.len() < parsed.len() {
        let blocks = tops::places(parsed, lines);
        let f = against(given, 0, parsed);
        return Rechecked {
            number: f.number,
            position: f.position,
            count,
            blocks,
        };
    }
    let t = side_by_side(given, parsed, lines);
    if t.alike {
        let f = against(given, count, &parsed[..0]);
        return Rechecked {
            number: f.number,
            position: f.position,
            count,
            blocks: t.blocks,
        };
    }
    let f = against(given, 0, parsed);
    Rechecked {
        number: f.number,
        position: f.position,
        count,
        blocks: t.blocks,
    }
}

// What the parse refuses is wrong, or else the first event given that is not the parse's next one.
fn recheck(
    text: &[u8],
    given: &[u32],
    lines: &mut [u32],
    events: &mut [u32],
    limit: u32,
    lim: Limits,
) -> Rechecked
    ensures { Rechecks limit lim text.now given.now (length lines.old) (length events.old) result lines.new events.new }
{
    let a = parse::parse_within(text, lines, events, limit, lim);
    if a.number != 0 {
        events::clear(lines, 0);
        events::clear(events, 0);
        return Rechecked {
            number: a.number,
            position: a.position,
            count: 0,
            blocks: 0,
        };
    }
    let n = a.count as usize;
    let w = n * WIDTH;
    hold(given, &events[..w], lines)
}

// ---- equal runs of blocks

// How many blocks at the front are equal, of texts whose blocks begin at these places.
fn front(older: &[u8], os: &[u32], newer: &[u8], ns: &[u32]) -> usize
    ensures { result ≡ front_at older.now os.now newer.now ns.now }
{
    let most = walk::least(os.len(), ns.len());
    let mut a = tops::start_of(older, os, 0);
    let mut b = tops::start_of(newer, ns, 0);
    let mut k: usize = 0;
    while k < most {
        let p = tops::start_of(older, os, k + 1);
        let q = tops::start_of(newer, ns, k + 1);
        if !equals::same(trim::part(older, a, p), trim::part(newer, b, q)) {
            return k;
        }
        a = p;
        b = q;
        k += 1;
    }
    k
}

// How many pairs may be equal at the back, o and n blocks being left: where these are as many, the first pair is known to differ.
fn left(o: usize, n: usize) -> usize
    ensures { result ≡ left_of o n }
{
    if o != n {
        return walk::least(o, n);
    }
    if o == 0 {
        return 0;
    }
    o - 1
}

// How many blocks at the back are equal, behind the front run of k.
fn back(older: &[u8], os: &[u32], newer: &[u8], ns: &[u32], k: usize) -> usize
    requires { k ≡ front_at older.now os.now newer.now ns.now }
    ensures { result ≡ back_at older.now os.now newer.now ns.now }
{
    let most = left(os.len() - k, ns.len() - k);
    let mut p = older.len();
    let mut q = newer.len();
    let mut r: usize = 0;
    while r < most {
        let a = tops::start_of(older, os, os.len() - 1 - r);
        let b = tops::start_of(newer, ns, ns.len() - 1 - r);
        if !equals::same(trim::part(older, a, p), trim::part(newer, b, q)) {
            return r;
        }
        p = a;
        q = b;
        r += 1;
    }
    r
}

// ---- the part that changed

fn part_of(which: Which, start: usize, end: usize) -> Change
    ensures { result ≡ part_in which start end }
{
    Change {
        number: 0,
        position: 0,
        which,
        start: start as u64,
        end: end as u64,
    }
}

fn refused(which: Which, number: u64, position: u64) -> Change
    ensures { result ≡ refused_in which (record { number = number; position = position }) }
{
    Change {
        number,
        position,
        which,
        start: 0,
        end: 0,
    }
}

// What is new between the two runs; where nothing is but something was taken out, that.
fn between(older: &[u8], os: &[u32], newer: &[u8], ns: &[u32]) -> Change
    ensures { result ≡ changed_of older.now newer.now (starts_at older.now os.now) (starts_at newer.now ns.now) }
{
    let k = front(older, os, newer, ns);
    let r = back(older, os, newer, ns, k);
    let start = tops::start_of(newer, ns, k);
    let end = tops::start_of(newer, ns, ns.len() - r);
    if k + r != ns.len() {
        return part_of(Which::Newer, start, end);
    }
    if k + r == os.len() {
        return part_of(Which::Newer, start, end);
    }
    part_of(
        Which::Older,
        tops::start_of(older, os, k),
        tops::start_of(older, os, os.len() - r),
    )
}

// The newer's blocks begin at the places ns; the older's are noted in the event words, which are free.
fn newer_noted(older: &[u8], og: &[u32], newer: &[u8], ns: &[u32], events: &mut [u32]) -> Change
    requires { (events.old ≡ replicate (length events.old) 0) × (length (places_of (all_of og.now)) ≤ length events.old) }
    ensures value { result ≡ changed_of older.now newer.now (starts_of older.now (all_of og.now)) (starts_at newer.now ns.now) }
    ensures events_after { events.new ≡ replicate (length events.old) 0 }
{
    let m = tops::places(og, events);
    let c = between(older, &events[..m], newer, ns);
    zero(events, m);
    c
}

// The older's m blocks and then the newer's n begin at these places: a shared slice can be cut in two.
fn between_noted(older: &[u8], newer: &[u8], places: &[u32], m: usize, n: usize) -> Change
    requires { m + n ≤ length places.now }
    ensures { result ≡ changed_of older.now newer.now (starts_at older.now (take m places.now)) (starts_at newer.now (take n (drop m places.now))) }
{
    between(older, &places[..m], newer, &places[m..m + n])
}

// Both texts' blocks are noted in the event words.
fn none_noted(older: &[u8], og: &[u32], newer: &[u8], ng: &[u32], events: &mut [u32]) -> Change
    requires { (events.old ≡ replicate (length events.old) 0) × (length (places_of (all_of og.now)) + length (places_of (all_of ng.now)) ≤ length events.old) }
    ensures value { result ≡ changed_of older.now newer.now (starts_of older.now (all_of og.now)) (starts_of newer.now (all_of ng.now)) }
    ensures events_after { events.new ≡ replicate (length events.old) 0 }
{
    let m = tops::places(og, events);
    let n = tops::places(ng, &mut events[m..]);
    let c = between_noted(older, newer, events, m, n);
    zero(events, m + n);
    c
}

// What changed between editions whose events are their parses': the line words hold where the newer's blocks begin, if they had room.
fn changed_blocks(
    older: &[u8],
    og: &[u32],
    newer: &[u8],
    ng: &[u32],
    b: Rechecked,
    lines: &[u32],
    events: &mut [u32],
) -> Change
    requires { Settled og.now ng.now b lines.now events.old }
    ensures value { result ≡ changed_of older.now newer.now (starts_of older.now (all_of og.now)) (starts_of newer.now (all_of ng.now)) }
    ensures events_after { events.new ≡ replicate (length events.old) 0 }
{
    if b.blocks <= lines.len() {
        return newer_noted(older, og, newer, &lines[..b.blocks], events);
    }
    none_noted(older, og, newer, ng, events)
}

// The part that changed between two editions, each with its events; texts of at most `limit` bytes, with these limits of nesting and sections.
pub fn compare_within(
    older: &[u8],
    og: &[u32],
    newer: &[u8],
    ng: &[u32],
    lines: &mut [u32],
    events: &mut [u32],
    limit: u32,
    lim: Limits,
) -> Change
    ensures value { result ≡ change_of limit lim (length lines.old) (length events.old) older.now og.now newer.now ng.now }
    ensures lines_after { lines.new ≡ replicate (length lines.old) 0 }
    ensures events_after { events.new ≡ replicate (length events.old) 0 }
{
    // the older's places make way for the newer's lines, its events for the newer's parse
    let a = recheck(older, og, lines, events, limit, lim);
    zero(lines, a.blocks);
    if a.number != 0 {
        wipe(events, a.count);
        return refused(Which::Older, a.number, a.position);
    }
    let b = recheck(newer, ng, lines, events, limit, lim);
    wipe(events, b.count);
    if b.number != 0 {
        zero(lines, b.blocks);
        return refused(Which::Newer, b.number, b.position);
    }
    let c = changed_blocks(older, og, newer, ng, b, lines, events);
    zero(lines, b.blocks);
    c
}

// The same with the limits of `parse`: at most 16,777,215 bytes, 32 containers and 32 sections within each other.
pub fn compare(
    older: &[u8],
    og: &[u32],
    newer: &[u8],
    ng: &[u32],
    lines: &mut [u32],
    events: &mut [u32],
) -> Change
    ensures value { result ≡ change_of largest limits (length lines.old) (length events.old) older.now og.now newer.now ng.now }
    ensures lines_after { lines.new ≡ replicate (length lines.old) 0 }
    ensures events_after { events.new ≡ replicate (length events.old) 0 }
{
    compare_within(
        older,
        og,
        newer,
        ng,
        lines,
        events,
        events::LARGEST,
        Limits {
            nesting: events::DEEPEST,
            sections: events::DEEPEST,
        },
    )
}

// ---- the part as bytes

// The part, where it is one of the older text; else nothing.
pub fn older_part<'o>(older: &'o [u8], c: Change) -> &'o [u8]
    ensures { result.now ≡ older_part older.now c }
{
    let which = c.which;
    match which {
        Which::Older => trim::part(older, c.start as usize, c.end as usize),
        Which::Newer => trim::part(older, 0, 0),
    }
}

// The part, where it is one of the newer text; else nothing.
pub fn newer_part<'n>(newer: &'n [u8], c: Change) -> &'n [u8]
    ensures { result.now ≡ newer_part newer.now c }
{
    let which = c.which;
    match which {
        Which::Older => trim::part(newer, 0, 0),
        Which::Newer => trim::part(newer, c.start as usize, c.end as usize),
    }
}

// The part of the one or the other.
pub fn changed<'t>(older: &'t [u8], newer: &'t [u8], c: Change) -> &'t [u8]
    ensures { result.now ≡ changed_part older.now newer.now c }
{
    let which = c.which;
    match which {
        Which::Older => older_part(older, c),
        Which::Newer => newer_part(newer, c),
    }
}
