// The kind of a word that begins with a lower-case letter, and of a symbol.
ghost use Rattle.std.specs.Prelude.{◌≡◌, ◌≤◌, length};
ghost use Rattle.grammar.specs.Tokens.{reserved};
ghost use Rattle.letters.specs.Kinds.{Bytes, packed, numbered, kind_or, word_kind, minus_kind, symbol_kind, symbol_width};
ghost use Rattle.letters.specs.Token.{token_no};

use crate::classes::class_of;
use crate::token::Token;

const DIGIT: u8 = 4;

// of the reserved words; a match on byte strings instead leaves a goal for each of the 41 ways to the last arm
const LONGEST: usize = 6;

// A word of at most six bytes as one number, which no other word has: its bytes are digits in base 256, the first one lowest, with a 1 behind the last.
fn number_of_word(word: &[u8]) -> u64
    requires { length word.now ≤ 6 }
    ensures { (result ≡ packed word.now) × Bytes word.now }
{
    let mut n: u64 = 1;
    for i in (0..word.len()).rev() {
        n = n * 256 + u64::from(word[i]);
    }
    n
}

const NULL: u64 = 0x1_6c6c756e; // null

const PROC: u64 = 0x1_636f7270; // proc

const TRUE: u64 = 0x1_65757274; // true

const FALSE: u64 = 0x1_65736c6166; // false

const VAR: u64 = 0x1_726176; // var

const MALLOC: u64 = 0x1_636f6c6c616d; // malloc

const SKIP: u64 = 0x1_70696b73; // skip

const WHILE: u64 = 0x1_656c696877; // while

const IF: u64 = 0x1_6669; // if

const ELSE: u64 = 0x1_65736c65; // else

const ATOM: u64 = 0x1_6d6f7461; // atom

const VAL: u64 = 0x1_6c6176; // val

#[tactic(auto, using(crate::proofs::KindLaws::word_lemmas), unfolding(crate::specs::Kinds::kind_or, crate::specs::Kinds::numbered, crate::specs::Kinds::packed, grammar::specs::Tokens::reserved))]
fn reserved_kind(n: u64) -> Token
    ensures { token_no result ≡ kind_or (numbered n reserved) }
{
    match n {
        NULL => Token::Null,
        PROC => Token::Proc,
        TRUE => Token::True,
        FALSE => Token::False,
        VAR => Token::Var,
        MALLOC => Token::Malloc,
        SKIP => Token::Skip,
        WHILE => Token::While,
        IF => Token::If,
        ELSE => Token::Else,
        ATOM => Token::Atom,
        VAL => Token::Nowhere,
        _ => Token::Field,
    }
}

/// A reserved word's kind, or a field's.
pub fn kind_of_word(word: &[u8]) -> Token
    ensures { token_no result ≡ word_kind word.now }
{
    if LONGEST < word.len() {
        return Token::Field;
    }
    reserved_kind(number_of_word(word))
}

// a minus, by the byte after it
#[tactic(auto, using(crate::proofs::KindLaws::minus_lemmas))]
fn minus_before(after: u8) -> Token
    ensures { token_no result ≡ minus_kind after }
{
    if class_of(after) == DIGIT {
        Token::Sign
    } else {
        Token::Minus
    }
}

/// The kind of the symbol that begins with byte `b`, by the byte after it; 0 stands for the text's end.
#[tactic(auto, using(crate::proofs::KindLaws::symbol_lemmas), unfolding(crate::specs::Kinds::symbol_kind, crate::specs::Kinds::or_else, grammar::specs::Tokens::spelled, grammar::specs::Tokens::same_word, grammar::specs::Tokens::single, grammar::specs::Tokens::double))]
pub fn kind_of_symbol(b: u8, after: u8) -> Token
    ensures { token_no result ≡ symbol_kind b after }
{
    match b {
        b'(' => Token::OpeningParenthesis,
        b')' => Token::ClosingParenthesis,
        b'{' => Token::OpeningBrace,
        b'}' => Token::ClosingBrace,
        b';' => Token::Semicolon,
        b'.' => Token::Dot,
        b'<' => Token::Below,
        b':' => Token::Colon,
        b'=' if after == b'=' => Token::Equals,
        b'=' => Token::Becomes,
        b'|' if after == b'|' => Token::Bars,
        b'|' => Token::Nowhere,
        _ => minus_before(after),
    }
}

/// How many bytes it has.
#[tactic(auto, using(crate::proofs::KindLaws::width_lemmas))]
pub fn width_of_symbol(b: u8, after: u8) -> usize
    ensures { (result ≡ symbol_width b after) × (result ≤ 2) }
{
    match b {
        b'=' if after == b'=' => 2,
        b'|' if after == b'|' => 2,
        _ => 1,
    }
}
