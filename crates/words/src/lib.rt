// The words of the rule language, in one table that the lexer, the reader and the writer read.
#![tactic(auto)]

ghost use Rattle.std.specs.Prelude.{◌≡◌, true, false, map, Some as found, MatchOption};
ghost use Rattle.words.specs.Words.{text, operands, numbering, bare, within, Names};
ghost use Rattle.words.specs.Lookup.{starts_number, numbered, value_up_to, with_digit, numbering_of, line, line_of, fit, seek, lookup};

// What a word does in a rule.
#[derive(Clone, Copy, PartialEq, Eq, Debug)]
pub enum Operator {
    And,
    Or,
    Implies,
    Since,
    Rsince,
    Not,
    Before,
    Rbefore,
    Once,
    Ronce,
    Always,
    Ralways,
    Rise,
    Fall,
    True,
    False,
    Step,
    Call,
    Begin,
    End,
    Return,
    Predicate,
    Routine,
}

// How many units a word takes.
#[derive(Clone, Copy, PartialEq, Eq, Debug)]
pub enum Operands {
    Zero,
    One,
    Two,
}

// The numbers that may follow a numbered word.
#[derive(Clone, Copy, PartialEq, Eq, Debug)]
pub struct Numbers {
    pub lowest: u16,
    pub highest: u16,
}

// One row of the table.
#[derive(Clone, Copy, PartialEq, Eq, Debug)]
pub struct Row {
    pub text: &'static [u8],
    pub operator: Operator,
    pub operands: Operands,
    pub numbers: Option<Numbers>,
}

const PREDICATES: Numbers = Numbers {
    lowest: 0,
    highest: 63,
};

const ROUTINES: Numbers = Numbers {
    lowest: 1,
    highest: 65535,
};

// Every word of the language; a word stands at the place of its operator. One constant table for the lexer, the reader and the writer,
// so texts are looked for from its front, and no map is built.
pub const WORDS: [Row; 23] = [
    Row {
        text: b"and",
        operator: Operator::And,
        operands: Operands::Two,
        numbers: None,
    },
    Row {
        text: b"or",
        operator: Operator::Or,
        operands: Operands::Two,
        numbers: None,
    },
    Row {
        text: b"implies",
        operator: Operator::Implies,
        operands: Operands::Two,
        numbers: None,
    },
    Row {
        text: b"since",
        operator: Operator::Since,
        operands: Operands::Two,
        numbers: None,
    },
    Row {
        text: b"rsince",
        operator: Operator::Rsince,
        operands: Operands::Two,
        numbers: None,
    },
    Row {
        text: b"not",
        operator: Operator::Not,
        operands: Operands::One,
        numbers: None,
    },
    Row {
        text: b"before",
        operator: Operator::Before,
        operands: Operands::One,
        numbers: None,
    },
    Row {
        text: b"rbefore",
        operator: Operator::Rbefore,
        operands: Operands::One,
        numbers: None,
    },
    Row {
        text: b"once",
        operator: Operator::Once,
        operands: Operands::One,
        numbers: None,
    },
    Row {
        text: b"ronce",
        operator: Operator::Ronce,
        operands: Operands::One,
        numbers: None,
    },
    Row {
        text: b"always",
        operator: Operator::Always,
        operands: Operands::One,
        numbers: None,
    },
    Row {
        text: b"ralways",
        operator: Operator::Ralways,
        operands: Operands::One,
        numbers: None,
    },
    Row {
        text: b"rise",
        operator: Operator::Rise,
        operands: Operands::One,
        numbers: None,
    },
    Row {
        text: b"fall",
        operator: Operator::Fall,
        operands: Operands::One,
        numbers: None,
    },
    Row {
        text: b"true",
        operator: Operator::True,
        operands: Operands::Zero,
        numbers: None,
    },
    Row {
        text: b"false",
        operator: Operator::False,
        operands: Operands::Zero,
        numbers: None,
    },
    Row {
        text: b"step",
        operator: Operator::Step,
        operands: Operands::Zero,
        numbers: None,
    },
    Row {
        text: b"call",
        operator: Operator::Call,
        operands: Operands::Zero,
        numbers: None,
    },
    Row {
        text: b"begin",
        operator: Operator::Begin,
        operands: Operands::Zero,
        numbers: None,
    },
    Row {
        text: b"end",
        operator: Operator::End,
        operands: Operands::Zero,
        numbers: None,
    },
    Row {
        text: b"return",
        operator: Operator::Return,
        operands: Operands::Zero,
        numbers: None,
    },
    Row {
        text: b"p",
        operator: Operator::Predicate,
        operands: Operands::Zero,
        numbers: Some(PREDICATES),
    },
    Row {
        text: b"r",
        operator: Operator::Routine,
        operands: Operands::Zero,
        numbers: Some(ROUTINES),
    },
];

// A word of a rule: its operator, and the number of `pN` and `rN`, which is 0 for every other word. No `Option`, since each reader of
// the number has matched the operator, and would have to match once more.
#[derive(Clone, Copy, PartialEq, Eq, Debug)]
pub struct Word {
    pub operator: Operator,
    pub number: u16,
}

// How many units the operator takes.
pub fn operands_of(operator: Operator) -> Operands
    ensures value { result ≡ operands operator }
{
    row_of(operator).operands
}

// The operator's word, without its number.
pub fn text_of(operator: Operator) -> &'static [u8]
    ensures value { result.now ≡ text operator }
{
    row_of(operator).text
}

// Whether a number follows the operator's word.
pub fn is_numbered(operator: Operator) -> bool
    ensures value { result ≡ elim (numbering operator) [ bare ↦ false | within low high ↦ true ] }
{
    row_of(operator).numbers.is_some()
}

// The operator's row.
fn row_of(operator: Operator) -> &'static Row
    ensures line { line_of result.now ≡ line operator }
    ensures operands { result.now.operands ≡ operands operator }
{
    let rows: &'static [Row] = &WORDS;
    // A word stands at the place of its operator, and no `From` leads to a discriminant.
    &rows[operator as usize]
}

// The word that the bytes are.
pub fn find(run: &[u8]) -> Option<Word>
    ensures named { MatchOption result ((w : Word) → Names run.now w → ⊥) (λ w. Names run.now w) }
    ensures only { (w : Word) → Names run.now w → result ≡ found w }
    ensures value { result ≡ lookup run.now }
{
    find_in(&WORDS, run)
}

// The word of the first row that the bytes fit. A loop, since no lemma of the library says what `find_map` of them comes to.
fn find_in(rows: &[Row], run: &[u8]) -> Option<Word>
    ensures value { result ≡ seek (map line_of rows.now) run.now }
{
    for row in rows {
        if let Some(number) = match_row(row, run) {
            return Some(Word {
                operator: row.operator,
                number,
            });
        }
    }
    None
}

// The number that the bytes give the row's word.
fn match_row(row: &Row, run: &[u8]) -> Option<u16>
    ensures value { result ≡ fit (line_of row.now) run.now }
{
    let rest = run.strip_prefix(row.text)?;
    number_of(row.numbers, rest)
}

// The number that the bytes behind a word give it; 0 where none may follow.
fn number_of(numbers: Option<Numbers>, rest: &[u8]) -> Option<u16>
    ensures value { result ≡ numbered (numbering_of numbers) rest.now }
{
    match numbers {
        Some(numbers) => number_in(numbers, rest),
        None => rest.is_empty().then_some(0),
    }
}

// The number that digits with no leading zero write, if it is one of those that may follow the word.
fn number_in(numbers: Numbers, digits: &[u8]) -> Option<u16>
    ensures value { result ≡ numbered (within numbers.lowest numbers.highest) digits.now }
{
    if !starts_number(digits) {
        return None;
    }
    value_up_to(numbers.highest, digits).filter(|number| *number >= numbers.lowest)
}

// Whether there is a byte, and no other behind a leading zero.
fn starts_number(digits: &[u8]) -> bool
    ensures value { result ≡ starts_number digits.now }
{
    match digits {
        [] => false,
        [_] => true,
        [first, ..] => *first != b'0',
    }
}

// The number that the bytes write, if all are digits and it is at most `highest`. A loop, since no lemma of the library says what
// `try_fold` of them comes to.
fn value_up_to(highest: u16, digits: &[u8]) -> Option<u16>
    ensures value { result ≡ value_up_to highest digits.now }
{
    let mut number = 0;
    for digit in digits {
        number = with_digit(highest, number, *digit)?;
    }
    Some(number)
}

// The number with one more digit, if it is at most `highest`.
fn with_digit(highest: u16, number: u16, digit: u8) -> Option<u16>
    ensures value { result ≡ with_digit highest number digit }
{
    let units = digit.checked_sub(b'0').filter(|units| *units < 10)?;
    number
        .checked_mul(10)?
        .checked_add(u16::from(units))
        .filter(|longer| *longer <= highest)
}
