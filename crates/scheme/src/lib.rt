// The answers that are types of their own, as document 01 names them ("Readings as doubles"). No code.
#![tactic(auto)]

// A point reading: 'backed' with the value, 'first guess' with the value, 'off grid', or refused.
#[derive(Clone, Copy)]
pub enum Reading {
    Backed(f64),
    FirstGuess(f64),
    OffGrid,
    Refused,
}

// Lowest, highest and their span, each exact in units.
#[repr(C)]
#[derive(Clone, Copy)]
pub struct Units {
    pub lowest: f64,
    pub highest: f64,
    pub span: f64,
}

// The summary of a field. A refused one holds three zeros.
#[repr(C)]
#[derive(Clone, Copy)]
pub struct Summary {
    pub refusal: u32,
    pub place: u32,
    pub units: Units,
}
