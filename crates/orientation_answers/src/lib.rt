// Axes and quaternions as plain records of numbers, for callers in other languages, as crate `answers` has it.
// Each record has a kind, a number and a place of its own, and kinds are numbers: the C interface. Each `of_..` is a
// function and no `From`, since it is a public call with its promise (docs/PROMISES.md).

#![tactic(auto)]

ghost use Rattle.std.specs.Prelude.{◌≡◌};
ghost use Rattle.orientation_answers.specs.Answers as tells;

use answer_kinds::{IS, NOTHING, REFUSED};
use axes::{Axes, Orientations};
use foundation::refusal::Refusal;
use scaling::Quaternion;

// Three axes.
#[repr(C)]
#[derive(Clone, Copy)]
pub struct AxesAnswer {
    pub kind: u32,
    pub number: u32,
    pub place: usize,
    pub axes: Axes,
}

// No axes.
const NO_AXES: Axes = Axes {
    first: 0,
    second: 0,
    third: 0,
};

pub fn of_orientation(x: Result<Axes, Refusal>) -> AxesAnswer
    ensures { result ≡ tells.of_orientation x }
{
    of_oriented(x.map(Some))
}

pub fn of_oriented(x: Result<Option<Axes>, Refusal>) -> AxesAnswer
    ensures { result ≡ tells.of_oriented x }
{
    let (kind, number, place, axes) = match x {
        Ok(Some(axes)) => (IS, 0, 0, axes),
        Ok(None) => (NOTHING, 0, 0, NO_AXES),
        Err(refusal) => (REFUSED, refusal.number, refusal.place, NO_AXES),
    };
    AxesAnswer {
        kind,
        number,
        place,
        axes,
    }
}

// The axes of ORIN and of ORIO.
#[repr(C)]
#[derive(Clone, Copy)]
pub struct OrientationsAnswer {
    pub kind: u32,
    pub number: u32,
    pub place: usize,
    pub orin: Axes,
    pub orio: Axes,
}

pub fn of_orientations(x: Result<Orientations, Refusal>) -> OrientationsAnswer
    ensures { result ≡ tells.of_orientations x }
{
    let (kind, number, place, orin, orio) = match x {
        Ok(both) => (IS, 0, 0, both.orin, both.orio),
        Err(refusal) => (REFUSED, refusal.number, refusal.place, NO_AXES, NO_AXES),
    };
    OrientationsAnswer {
        kind,
        number,
        place,
        orin,
        orio,
    }
}

// A scaled quaternion.
#[repr(C)]
#[derive(Clone, Copy)]
pub struct QuaternionAnswer {
    pub kind: u32,
    pub number: u32,
    pub place: usize,
    pub quaternion: Quaternion,
}

// No quaternion.
const NO_QUATERNION: Quaternion = Quaternion {
    w: 0.0,
    x: 0.0,
    y: 0.0,
    z: 0.0,
};

pub fn of_scaled_row(x: Result<Option<Quaternion>, Refusal>) -> QuaternionAnswer
    ensures { result ≡ tells.of_scaled_row x }
{
    let (kind, number, place, quaternion) = match x {
        Ok(Some(quaternion)) => (IS, 0, 0, quaternion),
        Ok(None) => (NOTHING, 0, 0, NO_QUATERNION),
        Err(refusal) => (REFUSED, refusal.number, refusal.place, NO_QUATERNION),
    };
    QuaternionAnswer {
        kind,
        number,
        place,
        quaternion,
    }
}
