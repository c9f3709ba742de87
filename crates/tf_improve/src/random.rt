//! Random numbers: the generator SplitMix64 (Steele, Lea and Flood 2014).

const GOLDEN: u64 = 11_400_714_819_323_198_485;

const FIRST: u64 = 13_787_848_793_156_543_929;

const SECOND: u64 = 10_723_151_780_598_845_931;

/// A generator, which gives the same numbers on each machine.
#[derive(Clone, Copy)]
pub struct Random {
    pub state: u64,
}

impl Random {
    /// The next number, from 0 to 2^64 - 1.
    #[inline(always)]
    pub fn number(&mut self) -> u64 {
        let state = self.state.wrapping_add(GOLDEN);
        self.state = state;
        let first = (state ^ (state >> 30)).wrapping_mul(FIRST);
        let second = (first ^ (first >> 27)).wrapping_mul(SECOND);
        second ^ (second >> 31)
    }

    /// A number below `count`; 0 where that is 0.
    #[inline(always)]
    pub fn below(&mut self, count: usize) -> usize {
        let product = u128::from(self.number()).wrapping_mul(count as u128);
        usize::try_from(product >> 64).unwrap_or(0)
    }

    /// True or false with equal chance.
    pub fn coin(&mut self) -> bool {
        self.number() % 2 == 0
    }

    /// The negative binary logarithm of a random number between 0 and 1, in units of 1/1,024.
    #[inline(always)]
    pub fn logarithm(&mut self) -> i128 {
        let number = self.number() | 1;
        let zeros = number.leading_zeros();
        let mantissa = i128::from(number.wrapping_shl(zeros) >> 53);
        i128::from(zeros)
            .wrapping_mul(1_024)
            .wrapping_add(2_048)
            .wrapping_sub(mantissa)
    }
}
