// The lexer: a rule text that is at most as long as a rule text may be, and a place in it.
ghost use Rattle.std.specs.Prelude.{◌≤◌, length};
ghost use Rattle.grammar.specs.Limits.{max_text};

#[derive(Drop)]
pub struct Lexer<'a> {
    pub(crate) text: &'a [u8],
    pub(crate) at: usize,
    ghost within: { at ≤ length text.now },
    ghost short: { length text.now ≤ max_text },
}
