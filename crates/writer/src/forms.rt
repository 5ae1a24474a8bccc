// How a node is written, by its tag: the marks and the words of the node in their order.
ghost use Rattle.std.specs.Prelude.{◌≡◌};
ghost use Rattle.writer.specs.Forms.{form_of, passed};

use pen::kinds::{
    ATOM, BARS, CLOSING_BRACE, CLOSING_PARENTHESIS, COLON, DOT, ELSE, EQUALS, EQUALS_SIGN, FALSE,
    IF, LESS, MALLOC, MINUS, NULL, OPENING_BRACE, OPENING_PARENTHESIS, PROC, SEMICOLON, SKIP, TRUE,
    VAR, WHILE,
};

/// How a word of a node is written.
#[derive(Clone, Copy)]
pub enum How {
    Nothing,
    Name,
    Field,
    /// a node with no parentheses around it
    Whole,
    /// an expression left of a minus, a comparison or an argument
    Left,
    /// left of a dot
    LeftOfDot,
    /// right of a minus
    Right,
    /// right of a dot
    RightOfDot,
    /// what is called: by what stands before the command
    Callee,
    /// what a field of is assigned to: by what stands before the command
    Target,
    /// a command behind a test
    Behind,
}

impl How {
    /// Only what stands behind a test is told what stands before it.
    #[tactic(auto, using(crate::proofs::TestLaws::tests))]
    pub fn passes(self, front: bool) -> bool
        ensures { result ≡ passed self front }
    {
        match self {
            How::Behind => front,
            _ => false,
        }
    }
}

/// Two marks, word a, a mark, word b, a mark, word c, a mark. A mark or a word may be none.
#[derive(Clone, Copy)]
pub struct Form {
    pub first: Option<u32>,
    pub second: Option<u32>,
    pub a: How,
    pub third: Option<u32>,
    pub b: How,
    pub fourth: Option<u32>,
    pub c: How,
    pub last: Option<u32>,
}

const EMPTY: Form = Form {
    first: None,
    second: None,
    a: How::Nothing,
    third: None,
    b: How::Nothing,
    fourth: None,
    c: How::Nothing,
    last: None,
};

/// The form of a node of this tag. An integer has none: it is one token or two, by its value.
// A match on the number, as the table of tags has it.
#[tactic(auto, using(crate::proofs::FormLaws::absent), unfolding(crate::specs::Forms::form_of, crate::specs::Forms::form_in, crate::specs::Forms::forms))]
pub fn form_of(tag: usize) -> Form
    ensures { result ≡ form_of tag }
{
    match tag {
        // field
        1 => Form {
            a: How::Field,
            ..EMPTY
        },
        // difference
        3 => Form {
            a: How::Left, // of the minus
            third: Some(MINUS),
            b: How::Right,
            ..EMPTY
        },
        // null
        4 => Form {
            first: Some(NULL),
            ..EMPTY
        },
        // variable
        5 => Form {
            a: How::Name,
            ..EMPTY
        },
        // selection
        6 => Form {
            a: How::LeftOfDot,
            third: Some(DOT),
            b: How::RightOfDot,
            ..EMPTY
        },
        // proc
        7 => Form {
            first: Some(PROC),
            a: How::Name,
            third: Some(COLON),
            b: How::Whole,
            ..EMPTY
        },
        // true
        16 => Form {
            first: Some(TRUE),
            ..EMPTY
        },
        // false
        17 => Form {
            first: Some(FALSE),
            ..EMPTY
        },
        // equal
        18 => Form {
            a: How::Left,
            third: Some(EQUALS),
            b: How::Whole,
            ..EMPTY
        },
        // less
        19 => Form {
            a: How::Left,
            third: Some(LESS),
            b: How::Whole,
            ..EMPTY
        },
        // var
        32 => Form {
            first: Some(VAR),
            a: How::Name,
            third: Some(SEMICOLON),
            b: How::Whole,
            ..EMPTY
        },
        // call
        33 => Form {
            a: How::Callee,
            third: Some(OPENING_PARENTHESIS),
            b: How::Whole,
            last: Some(CLOSING_PARENTHESIS),
            ..EMPTY
        },
        // malloc
        34 => Form {
            first: Some(MALLOC),
            second: Some(OPENING_PARENTHESIS),
            a: How::Name,
            last: Some(CLOSING_PARENTHESIS),
            ..EMPTY
        },
        // assign
        35 => Form {
            a: How::Name,
            third: Some(EQUALS_SIGN),
            b: How::Whole,
            ..EMPTY
        },
        // field assign
        36 => Form {
            a: How::Target,
            third: Some(DOT),
            b: How::RightOfDot,
            fourth: Some(EQUALS_SIGN),
            c: How::Whole,
            ..EMPTY
        },
        // skip
        37 => Form {
            first: Some(SKIP),
            ..EMPTY
        },
        // sequence
        38 => Form {
            first: Some(OPENING_BRACE),
            a: How::Whole,
            third: Some(SEMICOLON),
            b: How::Whole,
            last: Some(CLOSING_BRACE),
            ..EMPTY
        },
        // while
        39 => Form {
            first: Some(WHILE),
            a: How::Whole,
            b: How::Behind,
            ..EMPTY
        },
        // if
        40 => Form {
            first: Some(IF),
            a: How::Whole,
            b: How::Behind,
            fourth: Some(ELSE),
            c: How::Whole,
            ..EMPTY
        },
        // parallel
        41 => Form {
            first: Some(OPENING_BRACE),
            a: How::Whole,
            third: Some(BARS),
            b: How::Whole,
            last: Some(CLOSING_BRACE),
            ..EMPTY
        },
        // atom
        42 => Form {
            first: Some(ATOM),
            second: Some(OPENING_PARENTHESIS),
            a: How::Whole,
            last: Some(CLOSING_PARENTHESIS),
            ..EMPTY
        },
        _ => EMPTY,
    }
}
