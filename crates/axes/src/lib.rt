// What axes are: the definitions of the matrix that ORIN and ORIO give and of the axes that a matrix names, and the law that joins them. No code.

#![tactic(auto)]

// Three axes in order, a character each.
#[repr(C)]
#[derive(Clone, Copy, PartialEq, Eq, Debug)]
pub struct Axes {
    pub first: u8,
    pub second: u8,
    pub third: u8,
}

// What ORIN and ORIO name.
#[derive(Clone, Copy, PartialEq, Eq, Debug)]
pub struct Orientations {
    pub orin: Axes,
    pub orio: Axes,
}
