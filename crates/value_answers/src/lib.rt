// Elements, shapes and averages as plain records of numbers, for callers in other languages, as crate `answers` has it.
// Each record has a kind, a number and a place of its own, and kinds are numbers: the C interface. Each `of_..` is a
// function and no `From`, since it is a public call with its promise (docs/PROMISES.md).

#![tactic(auto)]

ghost use Rattle.std.specs.Prelude.{◌≡◌};
ghost use Rattle.value_answers.specs.Answers as tells;

use answer_kinds::{IS, NOTHING, REFUSED};
use elements::Element;
use foundation::refusal::Refusal;
use value::{Kind, Shape};

// A number in f64.
#[repr(C)]
#[derive(Clone, Copy)]
pub struct RealAnswer {
    pub kind: u32,
    pub number: u32,
    pub place: usize,
    pub value: f64,
}

pub fn of_average(x: Result<Option<f64>, Refusal>) -> RealAnswer
    ensures { result ≡ tells.of_average x }
{
    let (kind, number, place, value) = match x {
        Ok(Some(y)) => (IS, 0, 0, y),
        Ok(None) => (NOTHING, 0, 0, 0.0),
        Err(refusal) => (REFUSED, refusal.number, refusal.place, 0.0),
    };
    RealAnswer {
        kind,
        number,
        place,
        value,
    }
}

// The forms of a number, told as numbers: the C interface.
pub const SIGNED: u32 = 0;

pub const UNSIGNED: u32 = 1;

pub const SINGLE: u32 = 2;

pub const DOUBLE: u32 = 3;

// One number of a value: the field that its form names holds it, and the others are 0.
#[repr(C)]
#[derive(Clone, Copy)]
pub struct Number {
    pub form: u32,
    pub single: f32,
    pub signed: i64,
    pub unsigned: u64,
    pub double: f64,
}

fn formed(form: u32, single: f32, signed: i64, unsigned: u64, double: f64) -> Number
    ensures { result ≡ tells.formed form single signed unsigned double }
{
    Number {
        form,
        single,
        signed,
        unsigned,
        double,
    }
}

pub fn of_element(x: Element) -> Number
    ensures { result ≡ tells.of_element x }
{
    match x {
        Element::Signed(n) => formed(SIGNED, 0.0, n, 0, 0.0),
        Element::Unsigned(n) => formed(UNSIGNED, 0.0, 0, n, 0.0),
        Element::Single(y) => formed(SINGLE, y, 0, 0, 0.0),
        Element::Double(y) => formed(DOUBLE, 0.0, 0, 0, y),
    }
}

// An element of a value.
#[repr(C)]
#[derive(Clone, Copy)]
pub struct ElementAnswer {
    pub kind: u32,
    pub number: u32,
    pub place: usize,
    pub element: Number,
}

pub fn of_read(x: Result<Element, Refusal>) -> ElementAnswer
    ensures { result ≡ tells.of_read x }
{
    let (kind, number, place, element) = match x {
        Ok(element) => (IS, 0, 0, of_element(element)),
        Err(refusal) => (
            REFUSED,
            refusal.number,
            refusal.place,
            of_element(Element::Signed(0)),
        ),
    };
    ElementAnswer {
        kind,
        number,
        place,
        element,
    }
}

// What a value is called, its rows, and the columns of its first row.
#[repr(C)]
#[derive(Clone, Copy)]
pub struct ShapeAnswer {
    pub kind: u32,
    pub number: u32,
    pub place: usize,
    pub value_kind: u32,
    pub rows: usize,
    pub columns: usize,
}

// The number of what a value is called, from 0.
pub fn of_kind(x: Kind) -> u32
    ensures { result ≡ tells.of_kind x }
{
    x as u32
}

pub fn of_shaped(x: Result<Shape, Refusal>) -> ShapeAnswer
    ensures { result ≡ tells.of_shaped x }
{
    let (kind, number, place, value_kind, rows, columns) = match x {
        Ok(shape) => (IS, 0, 0, of_kind(shape.kind), shape.rows, shape.columns),
        Err(refusal) => (REFUSED, refusal.number, refusal.place, 0, 0, 0),
    };
    ShapeAnswer {
        kind,
        number,
        place,
        value_kind,
        rows,
        columns,
    }
}
