// The decimal text of a number.
ghost use Rattle.std.specs.Prelude.{◌≡◌, ◌≤◌, drop, decimal};

// The digits stand at the end of the array, from the place `from` on.
#[derive(Drop)]
pub struct Decimal {
    pub(crate) number: u64,
    pub(crate) digits: [u8; 20],
    pub(crate) from: usize,
    ghost within: { from ≤ 20 },
    ghost spelled: { drop from digits ≡ decimal number },
}

impl Decimal {
    // The text of a number of any width up to 64 bits.
    pub fn new(number: u64) -> Decimal
        ensures value { result.number ≡ number }
    {
        let mut digits = [0; 20];
        let mut from = 19;
        digits[from] = b'0' + (number % 10) as u8;
        let mut rest = number / 10;
        while rest > 0 {
            from -= 1;
            digits[from] = b'0' + (rest % 10) as u8;
            rest /= 10;
        }
        Decimal {
            number,
            digits,
            from,
        }
    }

    // The digits, without leading zeros.
    pub fn bytes(&self) -> &[u8]
        ensures value { result.now ≡ decimal self.now.number }
    {
        &self.digits[self.from..]
    }
}
