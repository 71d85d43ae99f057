// The two scans of the lexer: over spaces, and over a run of letters and digits. Each is one line; one scan over a closure would
// have to say what it asks of the closure, and what that answers.
ghost use Rattle.std.specs.Prelude.{◌≡◌, ◌+◌, ◌≤◌, length, drop, ◌==◌};
ghost use Rattle.std.specs.List.{prefix_len};
ghost use Rattle.grammar.specs.Lexemes.{is_letter};

// Whether the byte is a letter a–z or a digit.
pub(crate) fn is_letter(b: u8) -> bool
    ensures value { result ≡ is_letter b }
{
    matches!(b, b'a'..=b'z' | b'0'..=b'9')
}

// The first place from `at` on that holds no space, or the text's length.
pub(crate) fn skip_spaces(text: &[u8], at: usize) -> usize
    requires { at ≤ length text.now }
    ensures within { (at ≤ result) × (result ≤ length text.now) }
    ensures value { result ≡ at + prefix_len (λ b. b == 32) (drop at text.now) }
{
    at + text[at..].iter().take_while(|b| **b == b' ').count()
}

// The place behind the run of letters and digits at `at`.
pub(crate) fn run_end(text: &[u8], at: usize) -> usize
    requires { at ≤ length text.now }
    ensures within { (at ≤ result) × (result ≤ length text.now) }
    ensures value { result ≡ at + prefix_len is_letter (drop at text.now) }
{
    at + text[at..].iter().take_while(|b| is_letter(**b)).count()
}
