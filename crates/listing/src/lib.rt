// The lines that the program prints.
#![tactic(auto)]

ghost use Rattle.std.specs.Prelude.{◌≡◌, ℕ, ◌≤◌, List, [], ◌∷◌, ◌++◌, length, ◌==◌, position, MatchResult};
ghost use Rattle.grammar.specs.Grammar.{Tree};
ghost use Rattle.grammar.specs.Layout.{layout};
ghost use Rattle.reader.specs.Rules.{TreeOf};
ghost use Rattle.text.specs.Writing.{Written};
ghost use Rattle.listing.specs.Lines.{max_line, refusal_line, rule_line};
ghost use Rattle.listing.specs.Input.{Answer, fault_number, fault_place, first_line};

use reader::{Rule, read};
use refusal::Refusal;
use text::{Decimal, Line, WriteFault, write};

// The longest input of the program, in bytes.
pub const MAX_INPUT: usize = 65536;

// Why an input is not looked at.
#[derive(Clone, Copy, PartialEq, Eq, Debug)]
pub enum InputFault {
    TooLong,
}

// The place is the limit.
impl From<InputFault> for Refusal {
    ghost from_gives = { λ fault refusal. refusal ≡ record { number = fault_number fault; place = fault_place fault } };

    fn from(fault: InputFault) -> Refusal {
        let (number, place) = match fault {
            InputFault::TooLong => (44, MAX_INPUT),
        };
        Refusal { number, place }
    }
}

// The longest line that answers an input, its byte 10 included.
pub const MAX_LINE: usize = 542;

// More than the line of any refusal has: two numbers of at most five and twenty digits, and three bytes. A `Line` moves as a whole with
// each piece that is added, so it is kept short.
const MAX_REFUSAL: usize = 64;

// Writes a refusal's line.
pub fn refusal_line(refusal: Refusal, out: &mut [u8]) -> Result<usize, WriteFault>
    ensures written { Written out.old out.new (refusal_line refusal.number refusal.place) result }
    ensures short { length (refusal_line refusal.number refusal.place) ≤ max_line }
{
    let number = Decimal::new(u64::from(refusal.number));
    // No `From` leads from a `usize` to a `u64`.
    let place = Decimal::new(refusal.place as u64);
    let line = Line::<MAX_REFUSAL>::new()
        .add(b"!")
        .add(number.bytes())
        .add(b" ")
        .add(place.bytes())
        .add(b"\n");
    write(out, line.bytes())
}

// Writes a text and the byte 10 behind it, or refuses and writes nothing.
fn write_line(out: &mut [u8], text: &[u8]) -> Result<usize, WriteFault>
    ensures written { Written out.old out.new (text.now ++ 10 ∷ []) result }
{
    let end = text.len();
    if out.len() <= end {
        return Err(WriteFault::TooShort(end + 1));
    }
    out[..end].copy_from_slice(text);
    out[end] = b'\n';
    Ok(end + 1)
}

// Writes a rule's line: its text as laid out.
pub fn rule_line(rule: &Rule, out: &mut [u8]) -> Result<usize, WriteFault>
    ensures some_tree { ∥ ((t : Tree) × TreeOf rule.now t) ∥₁ }
    ensures written { (t : Tree) → TreeOf rule.now t → Written out.old out.new (rule_line (layout t)) result }
    ensures short { (t : Tree) → TreeOf rule.now t → length (rule_line (layout t)) ≤ max_line }
{
    write_line(out, writer::text_of(rule).bytes())
}

// The place of the first byte 10.
fn line_end(input: &[u8]) -> Option<usize>
    ensures place { result ≡ position (λ b. b == 10) input.now }
{
    input.iter().position(|b| *b == b'\n')
}

// The rule's part of the input: what stands before the first byte 10.
pub fn first_line(input: &[u8]) -> &[u8]
    ensures value { result.now ≡ first_line input.now }
{
    &input[..line_end(input).unwrap_or(input.len())]
}

// The rule in the input, or why there is none.
fn rule_of(input: &[u8]) -> Result<Rule, Refusal>
    ensures answer { MatchResult result
        (λ rule. (t : Tree) × TreeOf rule t × Answer input.now (rule_line (layout t)))
        (λ refusal. Answer input.now (refusal_line refusal.number refusal.place)) }
{
    if input.len() > MAX_INPUT {
        return Err(Refusal::from(InputFault::TooLong));
    }
    Ok(read(first_line(input))?)
}

// Writes the line that answers an input: the rule in it written out, or why there is none.
pub fn answer(input: &[u8], out: &mut [u8]) -> Result<usize, WriteFault>
    ensures some_line { (line : List ℕ) × Answer input.now line }
    ensures one_line { (l m : List ℕ) → Answer input.now l → Answer input.now m → l ≡ m }
    ensures short { (line : List ℕ) → Answer input.now line → length line ≤ max_line }
    ensures written { (line : List ℕ) → Answer input.now line → Written out.old out.new line result }
{
    // A refusal is shown as a line, and not handed on.
    match rule_of(input) {
        Ok(rule) => rule_line(&rule, out),
        Err(refusal) => refusal_line(refusal, out),
    }
}
