// The eight-byte real that equals a double, made from the double's bits with whole numbers alone.
#![tactic(auto)]

ghost use Rattle.std.specs.Prelude.{◌≡◌, ◌^◌, ◌<◌};
ghost use Rattle.doubles.specs.Doubles.{real, raised, lowered, real_from};

// The word of the normal real that is read as the double, where some real is (none is as −0).
pub fn real_from_bits(bits: u64) -> Option<u64>
    ensures { result ≡ real_from bits }
{
    if bits == 0 {
        return Some(0);
    }
    match bits / 0x10_0000_0000_0000 % 2048 {
        0 | 2047 => None,
        x @ 1..763 => real_lowered(bits, 763 - x),
        x => real_raised(bits, x - 763),
    }
}

// The significand times 2^k.
fn real_raised(bits: u64, k: u64) -> Option<u64>
    ensures { result ≡ raised bits k }
{
    let e = k / 4;
    if 128 <= e {
        return None;
    }
    let n = 0x10_0000_0000_0000 + bits % 0x10_0000_0000_0000;
    Some(real_with(bits, e, n << (k % 4)))
}

// The significand by 2^k. It is below 2^53, so a k above 52 leaves a rest.
fn real_lowered(bits: u64, k: u64) -> Option<u64>
    ensures { result ≡ lowered bits k }
{
    if 52 < k {
        return None;
    }
    let n = 0x10_0000_0000_0000 + bits % 0x10_0000_0000_0000;
    let m = n >> k;
    (m << k == n).then_some(real_with(bits, 0, m))
}

fn real_with(bits: u64, e: u64, m: u64) -> u64
    requires { (e < 128) × (m < 2 ^ 56) }
    ensures { result ≡ real bits e m }
{
    bits / 0x8000_0000_0000_0000 * 0x8000_0000_0000_0000 + e * 0x100_0000_0000_0000 + m
}
