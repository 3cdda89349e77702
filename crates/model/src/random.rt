// The program's own random numbers: xorshift on 64 bits, so that each run draws the same.
ghost use Rattle.std.specs.Prelude.{◌≤◌, ◌-◌};

#[derive(Clone, Copy)]
pub struct Random(u64);

impl Random {
    // A state that depends on every bit of the seed.
    pub(crate) fn seeded(seed: u32) -> Random {
        let mixed = (u64::from(seed) + 1) * 2654435769 ^ 11400714819323198485;
        let mut random = Random(mixed);
        for _ in 0..4 {
            random.advance();
        }
        random
    }

    fn advance(&mut self) -> u64 {
        let a = self.0;
        let b = a ^ (a << 13);
        let c = b ^ (b >> 7);
        self.0 = c ^ (c << 17);
        self.0
    }

    // Any word.
    pub fn word(&mut self) -> u32 {
        u32::try_from(self.advance() >> 16 & 0xffff_ffff).unwrap()
    }

    // A number below n; 0 for n = 0.
    pub fn below(&mut self, n: u32) -> u32
        ensures { result ≤ n - 1 }
    {
        let word = self.word();
        if n == 0 { 0 } else { word % n }
    }

    // True once in n.
    pub fn once_in(&mut self, n: u32) -> bool {
        self.below(n) == 0
    }
}
