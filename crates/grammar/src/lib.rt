// What a rule text is made of: its tokens, its nodes, its limits, and the ways in which it is refused.
#![tactic(auto)]

ghost use Rattle.std.specs.Prelude.{◌≡◌};
ghost use Rattle.grammar.specs.Faults.{number, place};

use refusal::Refusal;
use words::Word;

// The longest text that is read, in bytes.
pub const MAX_TEXT: usize = 1024;

// How many parentheses and unfinished one-sided words a token may lie in, itself included.
pub const MAX_DEPTH: usize = 16;

// How many words a rule may have.
pub const MAX_WORDS: usize = 64;

// A token of a rule text.
#[derive(Clone, Copy, PartialEq, Eq, Debug)]
pub enum Token {
    Open,
    Close,
    Word(Word),
}

// A node of a rule: its word and, for a two-sided word, the place of its left operand, else 0.
// The right or only operand is the node just before. Operands are named by places and not boxed: a rule lies in fixed memory.
// `left` is no `Option`, since each reader of it has matched the word as two-sided, and would have to match once more.
#[derive(Clone, Copy, PartialEq, Eq, Debug)]
pub struct Node {
    pub word: Word,
    pub left: u8,
}

// Why a text is no rule, and where. The place is held case by case: a byte, the start of a word or of a token, or the length of the
// text, as the case says.
#[derive(Clone, Copy, PartialEq, Eq, Debug)]
pub enum TextFault {
    TooLong,
    BadByte(usize),
    UnknownWord(usize),
    Misplaced(usize),
    EndsEarly(usize),
    TooDeep(usize),
    TooManyWords(usize),
}

// What the line of a refusal shows. The place is counted in bytes from 0; for a text that is too long it is the limit.
impl From<TextFault> for Refusal {
    ghost from_gives = { λ fault refusal. refusal ≡ record { number = number fault; place = place fault } };

    fn from(fault: TextFault) -> Refusal {
        let (number, place) = match fault {
            TextFault::TooLong => (11, MAX_TEXT),
            TextFault::BadByte(at) => (12, at),
            TextFault::UnknownWord(at) => (13, at),
            TextFault::Misplaced(at) => (14, at),
            TextFault::EndsEarly(at) => (15, at),
            TextFault::TooDeep(at) => (16, at),
            TextFault::TooManyWords(at) => (17, at),
        };
        Refusal { number, place }
    }
}
