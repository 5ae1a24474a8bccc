// The table by which a text is read (module Table of `reading`), and the stack of what is still due, in lent words. A thing due is one
// word: its number, and above it its tag and its name (module Words). Zero is nothing.
#![tactic(auto)]

mod deeds;
mod groups;
mod kinds;
mod rows;
pub mod stack;
mod things;

/// A node that comes out: its tag and its name, field index or integer.
#[derive(Clone, Copy)]
pub struct Made {
    pub tag: u32,
    pub value: u32,
}

/// Things due, the next one first: the first `count` of these words; of more than four, the four.
// No array: a struct with one is handed on through memory, and a read took a sixth more instructions.
#[derive(Clone, Copy)]
pub struct Dues {
    pub count: usize,
    pub a: u32,
    pub b: u32,
    pub c: u32,
    pub d: u32,
}

/// What a token does to what is due: it is taken, and these are due instead; or nothing is due here any more; or it is refused.
#[derive(Clone, Copy)]
pub enum Deed {
    Take(Dues, Option<Made>),
    Pass(Option<Made>),
    Refuse,
}

// The numbers of the things due.
pub const COMMAND: u32 = 1;

pub const BODY: u32 = 2;

pub const VAR_NAME: u32 = 3;

pub const VAR_SEMI: u32 = 4;

pub const MALLOC_OPEN: u32 = 5;

pub const MALLOC_NAME: u32 = 6;

pub const ATOM_OPEN: u32 = 7;

pub const MIDDLE: u32 = 8;

pub const SHUT: u32 = 9;

pub const OTHERWISE: u32 = 10;

pub const CLOSE: u32 = 11;

pub const CLOSE_NODE: u32 = 12;

pub const NODE: u32 = 13;

pub const TEST: u32 = 14;

pub const TEST_LEFT: u32 = 15;

pub const TEST_MINUS: u32 = 16;

pub const OPERAND: u32 = 17;

pub const NEGATIVE: u32 = 18;

pub const NAME_FIRST: u32 = 19;

pub const FIRST: u32 = 20;

pub const FIRST_DOT: u32 = 21;

pub const FIRST_DOTTED: u32 = 22;

pub const FIRST_MINUS: u32 = 23;

pub const BECOMES: u32 = 24;

pub const EXPRESSION: u32 = 25;

pub const SEL: u32 = 26;

pub const SEL_DOT: u32 = 27;

pub const AFTER_MINUS: u32 = 28;

pub const SEL_MINUS: u32 = 29;

pub const SEL_MINUS_DOT: u32 = 30;

pub const PROC_NAME: u32 = 31;

pub const PROC_COLON: u32 = 32;

// Things due that carry a tag: a node that comes out by itself, and one behind a parenthesis or a brace.
pub const NODE_DIFFERENCE: u32 = NODE + 64 * 3;

pub const NODE_SELECTION: u32 = NODE + 64 * 6;

pub const NODE_PROC: u32 = NODE + 64 * 7;

pub const NODE_EQUAL: u32 = NODE + 64 * 18;

pub const NODE_LESS: u32 = NODE + 64 * 19;

pub const NODE_VAR: u32 = NODE + 64 * 32;

pub const NODE_ASSIGN: u32 = NODE + 64 * 35;

pub const NODE_FIELD_ASSIGN: u32 = NODE + 64 * 36;

pub const NODE_WHILE: u32 = NODE + 64 * 39;

pub const NODE_IF: u32 = NODE + 64 * 40;

pub const CLOSE_CALL: u32 = CLOSE_NODE + 64 * 33;

pub const CLOSE_MALLOC: u32 = CLOSE_NODE + 64 * 34;

pub const CLOSE_ATOM: u32 = CLOSE_NODE + 64 * 42;

pub const SHUT_SEQUENCE: u32 = SHUT + 64 * 38;

pub const SHUT_PARALLEL: u32 = SHUT + 64 * 41;
