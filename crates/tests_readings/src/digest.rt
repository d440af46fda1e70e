// Many numbers as one.

pub const START: u64 = 0x9e37_79b9_7f4a_7c15;

// A digest with one more number: a sum, and then a step of xorshift. Both are one-to-one.
pub fn mix(digest: u64, n: u64) -> u64 {
    let x = digest.wrapping_add(n);
    let a = x ^ (x << 13);
    let b = a ^ (a >> 7);
    (b ^ (b << 17)).wrapping_add(1)
}

// A digest with some more numbers.
pub fn numbers(digest: u64, numbers: &[u64]) -> u64 {
    numbers.iter().fold(digest, |d, n| mix(d, *n))
}

// A digest with the length and the bytes of a slice.
pub fn bytes(digest: u64, s: &[u8]) -> u64 {
    s.iter()
        .fold(mix(digest, s.len() as u64), |d, b| mix(d, u64::from(*b)))
}
