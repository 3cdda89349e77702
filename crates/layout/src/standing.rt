// A block's standing bits as one value: slot k stands while bit k is 1.
//
// That a bit's number is below 32 and a slot's below 64 stay clauses: the numbers are counted by callers, as words of the store and loops give them, and a
// type for each would be made for the call and taken apart in its first line.
ghost use Rattle.std.specs.Prelude.{◌≡◌, ◌^◌, ◌<◌, ◌∷◌, [], MatchOption, eqb, length};
ghost use Rattle.base.specs.Bits.{bit_at, with_bit, without_bit};
ghost use Rattle.base.specs.Ones.{lower_off};
ghost use Rattle.layout.specs.Standing.{slots, stands, raised, lowered, first_slot, other_slots};
ghost use Rattle.layout.specs.StandingLaws.{none, word_of, with_word};
ghost use Rattle.layout.specs.SlotsLeft.{slots_left};
ghost use Rattle.std.specs.Iterator.{YieldsFirst, item_count};

#[derive(Clone, Copy)]
pub struct Standing {
    // slots 0 to 31
    pub low: u32,
    // slots 32 to 63
    pub high: u32,
}

// Bit k of a word is 1.
fn bit(x: u32, k: u32) -> bool
    requires { k < 32 }
    ensures { result ≡ eqb (bit_at k x) 1 }
{
    (x >> k) % 2 == 1
}

// What bit k weighs.
fn weight(k: u32) -> u32
    requires { k < 32 }
    ensures { result ≡ 2 ^ k }
{
    1u32 << k
}

// A word of standing bits with bit k made 1.
pub fn bit_on(x: u32, k: u32) -> u32
    requires { k < 32 }
    ensures { result ≡ with_bit k x }
{
    x | weight(k)
}

// A word of standing bits with bit k made 0. (No twin of `bit_on`: the operation on the word is another, not a constant in it.)
pub fn bit_off(x: u32, k: u32) -> u32
    requires { k < 32 }
    ensures { result ≡ without_bit k x }
{
    x - (x & weight(k))
}

// A word without its lowest one; 0 stays 0.
fn lower_off(x: u32) -> u32
    ensures { result ≡ lower_off x }
{
    if x == 0 {
        return 0;
    }
    x & (x - 1)
}

impl Standing {
    // What the first bit of the high word weighs: 2 ^ 32.
    const HIGH_WEIGHT: u64 = 4294967296;

    // How many slots stand: the ones of both words, counted as one word of 64 bits.
    pub fn count(self) -> u32
        ensures { result ≡ length (slots self) }
    {
        (u64::from(self.high) * Self::HIGH_WEIGHT + u64::from(self.low)).count_ones()
    }

    // The word that has slot k's bit, which is bit k modulo 32 there.
    fn word(self, k: u32) -> u32
        ensures { result ≡ word_of self k }
    {
        if k < 32 { self.low } else { self.high }
    }

    // That word replaced.
    fn with_word(self, k: u32, x: u32) -> Standing
        ensures { result ≡ with_word self k x }
    {
        if k < 32 {
            return Standing { low: x, ..self };
        }
        Standing { high: x, ..self }
    }

    // Slot k stands.
    pub fn has(self, k: u32) -> bool
        requires { k < 64 }
        ensures { result ≡ stands self k }
    {
        bit(self.word(k), k % 32)
    }

    // Slot k made to stand.
    pub fn with(self, k: u32) -> Standing
        requires { k < 64 }
        ensures { result ≡ raised self k }
    {
        self.with_word(k, bit_on(self.word(k), k % 32))
    }

    // Slot k made to stand no more.
    pub fn without(self, k: u32) -> Standing
        requires { k < 64 }
        ensures { result ≡ lowered self k }
    {
        self.with_word(k, bit_off(self.word(k), k % 32))
    }

    // The first slot that stands, and the others.
    fn split_first(self) -> Option<(u32, Standing)>
        ensures { MatchOption result (slots self ≡ []) (λ p. slots self ≡ p.0 ∷ slots p.1) }
    {
        if self.is_empty() {
            return None;
        }
        Some((self.first(), self.rest()))
    }

    // The slots that stand, in slot order.
    pub fn slots(self) -> Slots
        ensures { slots_left result ≡ slots self }
    {
        Slots { left: self }
    }

    // No slot stands.
    pub fn is_empty(self) -> bool
        ensures { result ≡ none self }
    {
        self.low == 0 && self.high == 0
    }

    // The first slot that stands; 64 where none does, as a word of 32 bits has 32 zeros at its end. (No `Option`: it was public and could not fail, and
    // `split_first`, which gives one, has tested.)
    pub fn first(self) -> u32
        ensures { result ≡ first_slot self }
    {
        if self.low == 0 {
            return 32 + self.high.trailing_zeros();
        }
        self.low.trailing_zeros()
    }

    // The slots that stand without the first.
    pub fn rest(self) -> Standing
        ensures { result ≡ other_slots self }
    {
        if self.low == 0 {
            return Standing {
                low: 0,
                high: lower_off(self.high),
            };
        }
        Standing {
            low: lower_off(self.low),
            ..self
        }
    }
}

// Standing slots in order, those that are left.
#[derive(Drop)]
pub struct Slots {
    left: Standing,
}

impl Iterator for Slots {
    type Item = u32;

    ghost next_gives = { YieldsFirst slots_left };

    ghost remaining = { item_count slots_left };

    #[inline]
    fn next(&mut self) -> Option<u32> {
        let (slot, others) = self.left.split_first()?;
        self.left = others;
        Some(slot)
    }
}
