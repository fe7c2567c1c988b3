// The acceptance classes: which subaddresses a kind of module accepts for a function, as a table of 192 entries that can be laid beside a data sheet.
#![tactic(auto)]

ghost use Rattle.std.specs.Prelude.{◌≡◌, ◌<◌};
ghost use Rattle.acceptance.specs.Classes.{class_number, digit_of, class_of, is_in, Spans};

// The classes, in 02's order.
#[derive(Clone, Copy)]
pub enum Class {
    None,
    BelowR,
    BelowS,
    A12ToA14,
    A12AndA13,
    A13Only,
    A0Only,
}

// The table: a row for each kind from 0 to 5, in it a digit for each function from 0 to 31, the number of its class.
const CLASSES: [[u8; 32]; 6] = [
    *b"00000000000000000000000000000000",
    *b"13110000212400000505000421220000",
    *b"10110000010000001010010000000000",
    *b"13110000212400000505000420220000",
    *b"63660000262400000505000420220000",
    *b"13110000212400001505000420220000",
];

// The number of a class, 0 to 6.
pub fn class_number(class: Class) -> u32
    ensures { result ≡ class_number class }
{
    class as u32
}

// The table's digit for a kind at function f. Each arm reads its own row, so that the one choice by kind that a command makes also serves its sources.
fn digit(kind: u32, f: u32) -> u8
    requires kind { kind < 6 }
    requires f_bound { f < 32 }
    ensures { result ≡ digit_of (class_of kind f) }
{
    let i = f as usize;
    match kind {
        0 => CLASSES[0][i],
        1 => CLASSES[1][i],
        2 => CLASSES[2][i],
        3 => CLASSES[3][i],
        4 => CLASSES[4][i],
        _ => CLASSES[5][i],
    }
}

// The class of a kind at function f: that of the table's digit. A conversion From a byte would have to give the bytes that are no digit a class too.
pub fn class_of(kind: u32, f: u32) -> Class
    requires kind { kind < 6 }
    requires f_bound { f < 32 }
    ensures { result ≡ class_of kind f }
{
    match digit(kind, f) {
        b'1' => Class::BelowR,
        b'2' => Class::BelowS,
        b'3' => Class::A12ToA14,
        b'4' => Class::A12AndA13,
        b'5' => Class::A13Only,
        b'6' => Class::A0Only,
        _ => Class::None,
    }
}

// Subaddresses from `first` up to `past`, which is not among them. No Range of std, which is not Copy: a transfer hands its span to each cycle.
#[derive(Clone, Copy)]
pub struct Span {
    pub first: u32,
    pub past: u32,
}

// The subaddresses of a class, of a module with r registers and s sources.
#[tactic(auto, using(std::proofs::lemmas::Bool::Decides::nat_tests), unfolding(crate::specs::Classes::admits))]
pub fn span_of(class: Class, r: u32, s: u32) -> Span
    ensures { Spans result class r s }
{
    match class {
        Class::None => Span { first: 0, past: 0 },
        Class::BelowR => Span { first: 0, past: r },
        Class::BelowS => Span { first: 0, past: s },
        Class::A12ToA14 => Span {
            first: 12,
            past: 15,
        },
        Class::A12AndA13 => Span {
            first: 12,
            past: 14,
        },
        Class::A13Only => Span {
            first: 13,
            past: 14,
        },
        Class::A0Only => Span { first: 0, past: 1 },
    }
}

// Whether a is among them.
pub fn has(span: Span, a: u32) -> bool
    ensures { result ≡ is_in span a }
{
    (span.first..span.past).contains(&a)
}
