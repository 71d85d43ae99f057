// Cuts a rule text into tokens, one at a time.
#![tactic(auto)]

ghost use Rattle.std.specs.Prelude.{◌≡◌, ◌<◌, ◌≤◌, length, IfOk, IfErr, OnErr};
ghost use Rattle.grammar.specs.Limits.{max_text};
ghost use Rattle.grammar.specs.declared.TextFault.TheVariants.{TooLong as too_long};
ghost use Rattle.lexer.specs.Answers.{left, pieces, text_of, Answers, Next};

use grammar::{MAX_TEXT, TextFault, Token};
use scan::{is_letter, run_end, skip_spaces};
use words::find;

mod lexer;
mod scan;

pub use lexer::Lexer;

// A token and the place of its first byte.
#[derive(Clone, Copy, PartialEq, Eq, Debug)]
pub struct Placed {
    pub place: usize,
    pub token: Token,
}

impl<'a> Lexer<'a> {
    // A lexer at the start of the text, if the text is not too long.
    pub fn new(text: &'a [u8]) -> Result<Lexer<'a>, TextFault>
        ensures starts { IfOk result (λ lexer. (length text.now ≤ max_text) × (lexer.at ≡ 0) × (text_of lexer ≡ text.now)) }
        ensures refused { IfErr result (λ fault. (max_text < length text.now) × (fault ≡ too_long)) }
    {
        if text.len() > MAX_TEXT {
            return Err(TextFault::TooLong);
        }
        Ok(Lexer { text, at: 0 })
    }

    // How many bytes the text has.
    pub fn text_len(&self) -> usize
        ensures value { result ≡ length self.now.text.now }
    {
        self.text.len()
    }

    // The next token; nothing at the end of the text; or why there is none, and then the lexer stays where it is.
    pub fn next(&mut self) -> Result<Option<Placed>, TextFault>
        ensures piece { Answers (pieces self.old) result (pieces self.new) }
        ensures answer { Next (left self.old) result (left self.new) }
        ensures same_text { self.new.text.now ≡ self.old.text.now }
        ensures unmoved { OnErr result (self.new.at ≡ self.old.at) }
    {
        let place = skip_spaces(self.text, self.at);
        let Some(first) = self.text.get(place) else {
            self.at = place;
            return Ok(None);
        };
        let (token, end) = match *first {
            b'(' => (Token::Open, place + 1),
            b')' => (Token::Close, place + 1),
            b if is_letter(b) => {
                let end = run_end(self.text, place);
                let word = find(&self.text[place..end]).ok_or(TextFault::UnknownWord(place))?;
                (Token::Word(word), end)
            }
            _ => return Err(TextFault::BadByte(place)),
        };
        self.at = end;
        Ok(Some(Placed { place, token }))
    }
}
