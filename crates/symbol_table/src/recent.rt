//! The numbers that tokens had last.
ghost use Rattle.std.specs.Prelude.{◌<◌};

/// How many numbers are kept.
const PLACES: usize = 256;

const _: () = prove!(PLACES == 256);

/// For some tokens, the number that each had when it was counted last. Names have the same few tokens again and again,
/// and a look here takes no hash. What is found may have another token by then, or none, so who asks looks at its slot.
#[derive(Drop)]
pub struct Recent {
    numbers: [u32; PLACES],
}

impl Recent {
    pub fn new() -> Recent {
        Recent {
            numbers: [0; PLACES],
        }
    }

    /// The number that this token had, or one that has its place, or 0.
    pub fn number_of(&self, token: &[u8]) -> u32 {
        self.numbers[place_of(token)]
    }

    /// Keeps the number of a token.
    pub fn note(&mut self, token: &[u8], n: u32) {
        self.numbers[place_of(token)] = n;
    }
}

// No two tokens of one byte have the same place.
fn place_of(token: &[u8]) -> usize
    ensures { result < PLACES }
{
    let Some(last) = token.last() else {
        return 0;
    };
    let (first, middle) = (token[0], token[token.len() / 2]);
    (first ^ (middle << 2) ^ (*last << 4)) as usize
}
