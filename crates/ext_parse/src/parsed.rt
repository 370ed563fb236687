use ext_mean::Program;

/// A program with the line of each of its items, counted from 1, in the order of the text.
#[derive(Drop)]
pub struct Parsed {
    pub program: Program,
    pub lines: Vec<u32>,
}
