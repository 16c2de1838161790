// Answers frames for the comparison with the Rust: each frame (`frame::read_task`) is an operation's letter and its
// bytes, and gets one line of numbers, as tools/judge/README.md says. It stops at the end of input or at a frame that
// is cut short or too long.
#![tactic(auto)]

use kinds::{Kind, Nested};
use markers::{Marker, Style};
use numbers::Numbering;
use print::Out;
use rows::Alignment;
use std::io;
use std::num::{wrapping_add_usize, wrapping_sub_usize};

// The words of the first n lines.
fn first_lines(words: &[u32], n: usize) -> &[u32] {
    if words.len() / 2 <= n {
        return words;
    }
    &words[..2 * n]
}

fn lines_out(out: &mut Out<'_, impl Print>, text: &[u8]) {
    let mut words = [0u32; 16384];
    match lines::split_lines(text, events::LARGEST, &mut words) {
        Err(_) => out.number(999999u32),
        Ok(n) => {
            out.number(n);
            out.numbers(first_lines(&words, n));
        }
    }
}

fn trim_out(out: &mut Out<'_, impl Print>, s: &[u8]) {
    let whole = trim::trim_span(s, 0, s.len());
    out.numbers(&[
        wrapping_sub_usize(s.len(), trim::trim_start(s).len()),
        trim::trim_end(s).len(),
        whole.start,
        whole.end,
        trim::indent_of(s),
    ]);
}

fn label_out(out: &mut Out<'_, impl Print>, t: &[u8]) {
    if !trim::defines(t) {
        return out.numbers(&[0u8, 0, 0]);
    }
    let start = trim::label_start(t);
    let end = wrapping_add_usize(start, trim::label(t).len());
    out.numbers(&[start, start, end]);
}

fn type_out(out: &mut Out<'_, impl Print>, m: Marker) {
    match m {
        Marker::Nothing => out.number(0u8),
        Marker::Unordered(b) => out.numbers(&[1, b]),
        Marker::Ordered {
            numbering,
            style,
            value,
        } => {
            out.numbers(&[2, u8::from(numbering), u8::from(style)]);
            out.number(value);
        }
        Marker::Task(b) => out.numbers(&[3, b]),
        Marker::Description => out.number(4u8),
    }
}

fn marker_out(out: &mut Out<'_, impl Print>, t: &[u8]) {
    let Some(read) = markers::read_marker(t) else {
        return out.number(0u8);
    };
    type_out(out, read.marker);
    out.number(read.len);
}

fn numbering_by(n: u8) -> Numbering {
    match n {
        1 => Numbering::Decimal,
        2 => Numbering::AlphaLower,
        3 => Numbering::AlphaUpper,
        4 => Numbering::RomanLower,
        _ => Numbering::RomanUpper,
    }
}

fn style_by(n: u8) -> Style {
    match n {
        0 => Style::Period,
        1 => Style::Paren,
        _ => Style::ParenParen,
    }
}

// The list type in twelve bytes: kind, bullet, numbering, style, value.
fn type_of(s: &[u8]) -> Marker {
    let bullet = classes::byte_at(s, 1);
    match classes::byte_at(s, 0) {
        1 => Marker::Unordered(bullet),
        2 => Marker::Ordered {
            numbering: numbering_by(classes::byte_at(s, 2)),
            style: style_by(classes::byte_at(s, 3)),
            value: u64::from(frame::four(s, 4)) + u64::from(frame::four(s, 8)) * 4294967296,
        },
        3 => Marker::Task(bullet),
        4 => Marker::Description,
        _ => Marker::Nothing,
    }
}

fn continues_out(out: &mut Out<'_, impl Print>, s: &[u8]) {
    match markers::continues(type_of(s), type_of(trim::part(s, 12, 24))) {
        None => out.number(0u8),
        Some(on) => {
            out.number(1u8);
            type_out(out, on.prev);
            type_out(out, on.next);
        }
    }
}

#[derive(Clone, Copy)]
pub struct Cells {
    pub cells: usize,
    pub unclosed: bool,
}

fn cell_out(out: &mut Out<'_, impl Print>, row: &[u8], start: usize, end: usize) {
    let cell = trim::trim_span(row, start, end);
    let text = trim::part(row, cell.start, cell.end);
    out.numbers(&[end, cell.start, cell.end]);
    out.number(u8::from(rows::is_separator(text)));
    out.number(u32::from(Alignment::of(text)));
}

fn cell_end(row: &[u8], start: usize) -> usize {
    match rows::next_cell(row, start) {
        Ok(end) => end,
        Err(_) => row.len(),
    }
}

// A cell takes a byte or more, its pipe; where each byte is one, no run is left open.
fn count_cells(row: &[u8]) -> Cells {
    let mut start: usize = 0;
    for cells in 0..row.len() {
        match rows::next_cell(row, start) {
            Err(end) => {
                return Cells {
                    cells,
                    unclosed: end.unclosed,
                };
            }
            Ok(end) => start = wrapping_add_usize(end, 1),
        }
    }
    Cells {
        cells: row.len(),
        unclosed: false,
    }
}

// The cells of a row without its first pipe: how many, whether a run is left open, and each cell.
fn row_out(out: &mut Out<'_, impl Print>, row: &[u8]) {
    let counted = count_cells(row);
    out.number(counted.cells);
    out.number(u8::from(counted.unclosed));
    let mut start: usize = 0;
    for _ in 0..counted.cells {
        let end = cell_end(row, start);
        cell_out(out, row, start, end);
        start = wrapping_add_usize(end, 1);
    }
}

fn kind_out(out: &mut Out<'_, impl Print>, kind: Kind) {
    out.number(u8::from(kind));
    match kind {
        Kind::Heading { level } => out.number(level),
        Kind::Fenced {
            indent,
            length,
            mark,
            spec,
            closed,
            nested,
        } => {
            let inside = nested.unwrap_or(Nested { mark: 0, length: 0 });
            out.numbers(&[indent, length, usize::from(mark), spec.start, spec.end]);
            out.numbers(&[usize::from(closed), usize::from(inside.mark), inside.length]);
        }
        Kind::Definition {
            indent,
            footnote,
            label,
            last_blank,
        } => out.numbers(&[
            indent,
            usize::from(footnote),
            label.start,
            label.end,
            usize::from(last_blank),
        ]),
        Kind::ListItem {
            indent,
            marker,
            last_blank,
        } => {
            out.number(indent);
            type_out(out, marker);
            out.number(u8::from(last_blank));
        }
        Kind::Table { caption, blank } => out.numbers(&[u8::from(caption), u8::from(blank)]),
        Kind::Blankline
        | Kind::Attributes
        | Kind::ThematicBreak
        | Kind::Paragraph
        | Kind::Blockquote => {}
    }
}

// What a line begins, and its opening span.
fn identify_out(out: &mut Out<'_, impl Print>, line: &[u8]) {
    let found = kinds::identify(line);
    let kind = found.kind;
    kind_out(out, kind);
    out.numbers(&[found.opening.start, found.opening.end]);
}

// The first block of a text: its kind after its lines, its opening span, lines, looks, and blank lines given back.
fn measure_out(out: &mut Out<'_, impl Print>, text: &[u8]) {
    let mut words = [0u32; 16384];
    match lines::split_lines(text, events::LARGEST, &mut words) {
        Err(_) => {}
        Ok(0) => out.number(0u8),
        Ok(n) => {
            let found = measure::measure(text, first_lines(&words, n));
            let kind = found.kind;
            kind_out(out, kind);
            out.numbers(&[found.opening.start, found.opening.end, found.lines]);
            out.number(found.looks);
            out.number(found.given);
        }
    }
}

fn answer(out: &mut Out<'_, impl Print>, op: u8, s: &[u8]) {
    match op {
        b'L' => lines_out(out, s),
        b'T' => trim_out(out, s),
        b'B' => label_out(out, s),
        b'M' => marker_out(out, s),
        b'C' => continues_out(out, s),
        b'A' => out.number(attrs::valid(s)),
        b'R' => row_out(out, s),
        b'I' => identify_out(out, s),
        b'K' => measure_out(out, s),
        _ => {}
    }
    out.put(b"\n");
}

fn main(rt: HostRuntime) -> io::Result<()> {
    let mut held = [0u8; 65536];
    let mut out = Out::new(&rt, &mut held);
    let mut room = [0u8; 65536];
    frame::each_task(&rt, &mut room, |op, load| {
        answer(&mut out, op, load);
        Some(())
    });
    out.finish()
}
