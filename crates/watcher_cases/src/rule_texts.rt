// Rule texts drawn at random: trees over all words, within the limits and beyond them, and here and there a damaged one.
use crate::random::Random;
use grammar::MAX_TEXT;
use std::alloc::Global;
use std::io;
use text::Decimal;

const TWO_SIDED: [&[u8]; 5] = [b"and", b"or", b"implies", b"since", b"rsince"];

const ONE_SIDED: [&[u8]; 9] = [
    b"not", b"before", b"rbefore", b"once", b"ronce", b"always", b"ralways", b"rise", b"fall",
];

const LEAVES: [&[u8]; 7] = [
    b"true", b"false", b"step", b"call", b"begin", b"end", b"return",
];

// What stands here and there in place of a right byte.
const DAMAGES: &[u8] = b" ()apr09Z\t";

// What is still to be written of a text: a rule or a unit that may lie so many levels deep, a two-sided word, or a parenthesis.
#[derive(Clone, Copy)]
enum Piece {
    Rule(u32),
    Unit(u32),
    TwoSided,
    Close,
}

// A text as far as it is written, and the pieces behind it, the next one last.
#[derive(Drop)]
struct Draft {
    text: Vec<u8>,
    pieces: Vec<Piece>,
}

impl Draft {
    // Writes a word or a parenthesis.
    fn put(&mut self, word: &[u8]) -> io::Result<()> {
        self.text.push(b' ')?;
        self.text.extend_from_slice(word)?;
        Ok(())
    }

    // Writes a word with its number.
    fn put_numbered(&mut self, word: &[u8], number: u32) -> io::Result<()> {
        self.put(word)?;
        self.text
            .extend_from_slice(Decimal::new(u64::from(number)).bytes())?;
        Ok(())
    }

    // Writes a word of the list.
    fn put_one_of(&mut self, words: &[&[u8]], random: &mut Random) -> io::Result<()> {
        match random.element(words) {
            Some(word) => self.put(word),
            None => Ok(()),
        }
    }

    // Writes a leaf. Most predicates and routine numbers are small, so that readings and events meet them.
    fn put_leaf(&mut self, random: &mut Random) -> io::Result<()> {
        match random.below(16) {
            0..=4 => self.put_one_of(&LEAVES, random),
            5 => self.put_numbered(b"p", random.below(66)),
            6 => self.put_numbered(b"r", random.below(70_000)),
            7..=8 => self.put_numbered(b"r", random.below(3).saturating_add(1)),
            _ => self.put_numbered(b"p", random.below(4)),
        }
    }

    // Writes a piece, or what it begins with, and leaves the rest of it for later.
    fn put_piece(&mut self, piece: Piece, random: &mut Random) -> io::Result<()> {
        match piece {
            Piece::Rule(levels) => self.put_rule(levels, random),
            Piece::Unit(levels) => self.put_unit(levels, random),
            Piece::TwoSided => self.put_one_of(&TWO_SIDED, random),
            Piece::Close => self.put(b")"),
        }
    }

    // A unit, or two and a word between them.
    fn put_rule(&mut self, levels: u32, random: &mut Random) -> io::Result<()> {
        self.pieces.push(Piece::Unit(levels))?;
        if !random.once_in(4) {
            self.pieces.push(Piece::TwoSided)?;
            self.pieces.push(Piece::Unit(levels))?;
        }
        Ok(())
    }

    // A leaf, or a word or a parenthesis before another unit or rule.
    fn put_unit(&mut self, levels: u32, random: &mut Random) -> io::Result<()> {
        let Some(below) = levels.checked_sub(1) else {
            return self.put_leaf(random);
        };
        match random.below(8) {
            0..=1 => self.put_leaf(random),
            2..=4 => {
                self.pieces.push(Piece::Unit(below))?;
                self.put_one_of(&ONE_SIDED, random)
            }
            _ => {
                self.pieces.push(Piece::Close)?;
                self.pieces.push(Piece::Rule(below))?;
                self.put(b"(")
            }
        }
    }
}

// Puts another byte into the text.
fn damage(text: &mut Vec<u8>, random: &mut Random) {
    let at = random.below(text.len().min(MAX_TEXT) as u32) as usize;
    let Some(byte) = random.element(DAMAGES) else {
        return;
    };
    if let Some(place) = text.get_mut(at) {
        *place = byte;
    }
}

// Draws a rule text.
pub(crate) fn rule_text(alloc: Global, random: &mut Random) -> io::Result<Vec<u8>> {
    let mut draft = Draft {
        text: Vec::new(alloc),
        pieces: vec![in alloc; Piece::Rule(random.below(20))]?,
    };
    for _ in 0..1000 {
        let Some(piece) = draft.pieces.pop() else {
            break;
        };
        draft.put_piece(piece, random)?;
    }
    let mut text = draft.text;
    if random.once_in(16) {
        damage(&mut text, random);
    }
    if random.once_in(100) {
        text.extend_from_slice(&[b' '; MAX_TEXT])?;
    }
    Ok(text)
}
