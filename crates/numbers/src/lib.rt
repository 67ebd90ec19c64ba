// Numbers of several bytes, the high byte first: shorts and longs in two's complement, the unsigned record size,
// and the eight bytes of a real as one word. No step for a short or a long is wider than 32 bits:
// std's methods of a type take none wider than it.
#![tactic(auto)]

ghost use Rattle.std.specs.Prelude.{◌≡◌, [], ◌∷◌, ◌+◌, ◌^◌, ◌≤◌, length, take, drop};
ghost use Rattle.cgx_spec.specs.Numbers.{number, digits, twos, untwos, short_of, long_of, short_bytes, long_bytes};
ghost use Rattle.cgx_spec.specs.Strings.{same};

// The bytes of a long.
pub const LONG_SIZE: usize = 4;

// ---- from bytes that are in hand
// A function for each width here and below, and not one for all: each promises the format's word for its width, and most are a call of their type's own method.

// Only a record's size is unsigned.
pub fn unsigned_of(a: u8, b: u8) -> u16
    ensures { result ≡ number (a ∷ b ∷ []) }
{
    u16::from_be_bytes([a, b])
}

pub fn short_of(a: u8, b: u8) -> i16
    ensures { result ≡ short_of (a ∷ b ∷ []) }
{
    i16::from_be_bytes([a, b])
}

pub fn long_of(a: u8, b: u8, c: u8, d: u8) -> i32
    ensures { result ≡ long_of (a ∷ b ∷ c ∷ d ∷ []) }
{
    i32::from_be_bytes([a, b, c, d])
}

// The bits of a long.
pub fn bits_of(a: u8, b: u8, c: u8, d: u8) -> u32
    ensures { result ≡ number (a ∷ b ∷ c ∷ d ∷ []) }
{
    u32::from_be_bytes([a, b, c, d])
}

// ---- from a place of a slice

pub fn unsigned_at(s: &[u8], at: usize) -> u16
    requires { at + 2 ≤ length s.now }
    ensures { result ≡ number (take 2 (drop at s.now)) }
{
    unsigned_of(s[at], s[at + 1])
}

pub fn short_at(s: &[u8], at: usize) -> i16
    requires { at + 2 ≤ length s.now }
    ensures { result ≡ short_of (take 2 (drop at s.now)) }
{
    short_of(s[at], s[at + 1])
}

pub fn long_at(s: &[u8], at: usize) -> i32
    requires { at + 4 ≤ length s.now }
    ensures { result ≡ long_of (take 4 (drop at s.now)) }
{
    long_of(s[at], s[at + 1], s[at + 2], s[at + 3])
}

// Whether the two longs at one place are those at another, by their bytes as they lie: no sign is made of them, and read with the low byte first they are
// what most machines read at once. Slices are handed on nowhere in this file: where that is a call, they would be copied.
pub fn same_pair(s: &[u8], at: usize, other: usize) -> bool
    requires { (at + 8 ≤ length s.now) × (other + 8 ≤ length s.now) }
    ensures { result ≡ same (take 8 (drop at s.now)) (take 8 (drop other s.now)) }
{
    let x = u32::from_le_bytes([s[at], s[at + 1], s[at + 2], s[at + 3]]);
    let y = u32::from_le_bytes([s[at + 4], s[at + 5], s[at + 6], s[at + 7]]);
    let other_x = u32::from_le_bytes([s[other], s[other + 1], s[other + 2], s[other + 3]]);
    let other_y = u32::from_le_bytes([s[other + 4], s[other + 5], s[other + 6], s[other + 7]]);
    let first = x == other_x;
    let second = y == other_y;
    first & second
}

// Eight bytes as one number: a real, a point, or a word that is copied. By steps of its own: with `u64::from_be_bytes` a copy of 8 to 64 bytes took 1.3
// to 1.5 times as long, since the compiler then makes a vector loop of the words in `buffers::put_bytes`, and the normal form of short texts is at its
// bar, 1.5 times C (docs/EVIDENCE.md).
pub fn word_of(b: &[u8]) -> u64
    requires { length b.now ≡ 8 }
    ensures { result ≡ number b.now }
{
    let high = (((b[0] as u64) * 256 + (b[1] as u64)) * 256 + (b[2] as u64)) * 256 + (b[3] as u64);
    let low = (((b[4] as u64) * 256 + (b[5] as u64)) * 256 + (b[6] as u64)) * 256 + (b[7] as u64);
    high * 0x1_0000_0000 + low
}

// ---- back to bytes

pub type ShortBytes = [u8; 2];

pub type LongBytes = [u8; 4];

pub type WordBytes = [u8; 8];

pub fn short_bytes(n: i16) -> ShortBytes
    ensures { result ≡ short_bytes n }
{
    i16::to_be_bytes(n)
}

pub fn long_bytes(n: i32) -> LongBytes
    ensures { result ≡ long_bytes n }
{
    i32::to_be_bytes(n)
}

pub fn word_bytes(w: u64) -> WordBytes
    ensures { result ≡ digits 8 w }
{
    u64::to_be_bytes(w)
}

// ---- two's complement

pub fn signed_long(n: u32) -> i32
    ensures { result ≡ twos (2 ^ 31) n }
{
    u32::cast_signed(n)
}

pub fn short_bits(n: i16) -> u16
    ensures { result ≡ untwos (2 ^ 15) n }
{
    i16::cast_unsigned(n)
}

pub fn long_bits(n: i32) -> u32
    ensures { result ≡ untwos (2 ^ 31) n }
{
    i32::cast_unsigned(n)
}
