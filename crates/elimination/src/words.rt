//! Bits of machine words.
ghost use Rattle.std.specs.Prelude.{◌≡◌, ℕ, ◌<◌, ◌/◌, ◌||◌, nat_eq, length};
ghost use Rattle.homology.specs.Parity.{xor};
ghost use Rattle.elimination.specs.Bits.{bit};

/// Whether the bit at this place is 1. At once.
pub(crate) fn bit(words: &[u64], place: usize) -> bool
    requires { place / 64 < length words.now }
    ensures { result ≡ bit words.now place }
{
    (words[place / 64] >> (place % 64)) & 1 == 1
}

/// Makes the bit at this place 1. At once.
pub(crate) fn set_bit(words: &mut [u64], place: usize)
    requires { place / 64 < length words.old }
    ensures { (q : ℕ) → bit words.new q ≡ (nat_eq q place || bit words.old q) }
{
    words[place / 64] |= 1 << (place % 64);
}

/// Adds bit by bit. A step for each word.
pub(crate) fn add_bits(words: &mut [u64], others: &[u64])
    requires { length words.old ≡ length others.now }
    ensures { (q : ℕ) → bit words.new q ≡ xor (bit words.old q) (bit others.now q) }
{
    for i in 0..words.len() {
        words[i] ^= others[i];
    }
}
