//! Numbers that look random, the same in each run.

/// A generator of numbers by exclusive ors and shifts (Marsaglia, "Xorshift RNGs").
#[derive(Clone, Copy)]
pub struct Numbers(u64);

impl Numbers {
    /// The generator of this number.
    pub fn new(seed: u64) -> Numbers {
        Numbers(seed.wrapping_mul(0x9e37_79b9_7f4a_7c15) | 1)
    }

    /// A number below this one; 0 where there is none.
    pub fn below(&mut self, bound: usize) -> usize {
        if bound == 0 {
            return 0;
        }
        let mut number = self.0;
        number ^= number << 13;
        number ^= number >> 7;
        number ^= number << 17;
        self.0 = number;
        (number % bound as u64) as usize
    }
}
