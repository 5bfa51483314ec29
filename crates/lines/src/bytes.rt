// A refusal's line as bytes: stores the line of a number and its details into bytes that have room.

pub mod names;
pub mod put;

// What a line says: the number, and the leaf, subleaf and s that it names. Those that it does not name are 0 or none.
#[derive(Clone, Copy)]
pub struct LineDetails {
    pub number: u32,
    pub leaf: u32,
    pub subleaf: Option<u32>,
    pub s: u32,
}
