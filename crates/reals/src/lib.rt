// Eight-byte reals: what a real is answered with, whether it is above zero, and the normal real equal to it.
// Each of the word w that the eight bytes make; the last two also of the bytes.
#![tactic(auto)]

ghost use Rattle.std.specs.Prelude.{◌≡◌, false, ◌*◌, ◌^◌, ◌<◌, length};
ghost use Rattle.std.specs.Float.{binary64};
ghost use Rattle.std.specs.Float.Ieee.{round};
ghost use Rattle.cgx_spec.specs.Reals.{answer, positive, normal, positive_real, normal_real};

use cgx_spec::Real;
use numbers::{WordBytes, word_bytes, word_of};

// ---- of a word

// The double equal to the real, zero as +0, or its parts where no double is.
pub fn real_of(w: u64) -> Real
    ensures { result ≡ answer w }
{
    let m = w % 0x100_0000_0000_0000;
    if m == 0 {
        return Real::Exact(0.0);
    }
    let e = w / 0x100_0000_0000_0000 % 128;
    let t = m.trailing_zeros();
    let q = m >> t;
    if 0x20_0000_0000_0000 <= q {
        return Real::Inexact {
            negative: 0x8000_0000_0000_0000 <= w,
            e: e as u8,
            m,
        };
    }
    let y = scaled(q, 4 * e + (t as u64));
    if w < 0x8000_0000_0000_0000 {
        Real::Exact(y)
    } else {
        Real::Exact(-y)
    }
}

pub fn real_positive(w: u64) -> bool
    ensures { result ≡ positive w }
{
    w < 0x8000_0000_0000_0000 && 0 < w % 0x100_0000_0000_0000
}

// The normal real equal to w: the mantissa goes up by four bits a step for as long as the exponent pays for it. Step by step and not by
// `leading_zeros`: a shift by so many bits calls a routine from outside on targets of 32 bits, which misses a goal of docs/TARGETS.md.
pub fn normal_real(w: u64) -> u64
    ensures { result ≡ normal w }
{
    let mut m = w % 0x100_0000_0000_0000;
    let mut e = w / 0x100_0000_0000_0000 % 128;
    if m == 0 {
        return 0;
    }
    while m < 0x10_0000_0000_0000 {
        if e == 0 {
            break;
        }
        e = e - 1;
        m = m * 16;
    }
    w / 0x8000_0000_0000_0000 * 0x8000_0000_0000_0000 + e * 0x100_0000_0000_0000 + m
}

// ---- of eight bytes

pub fn positive_bytes(b: &[u8]) -> bool
    requires { length b.now ≡ 8 }
    ensures { result ≡ positive_real b.now }
{
    real_positive(word_of(b))
}

pub fn normal_bytes(b: &[u8]) -> WordBytes
    requires { length b.now ≡ 8 }
    ensures { result ≡ normal_real b.now }
{
    word_bytes(normal_real(word_of(b)))
}

// ---- exact scaling

// q * 2^a / 2^312: both factors and their product are exact, and the power of two is made from its bit pattern.
fn scaled(q: u64, a: u64) -> f64
    requires { (0 < q) × (q < 2 ^ 53) × (a < 1300) }
    ensures { result ≡ round binary64 false (q * 2 ^ a) (2 ^ 312) }
{
    (q as f64) * f64::from_bits((a + 711) * 0x10_0000_0000_0000)
}
