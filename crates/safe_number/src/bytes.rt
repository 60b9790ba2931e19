//! Numbers as bytes and bits, the least significant first.
ghost use Rattle.std.specs.Prelude.{◌≡◌, ◌≤◌, ◌<◌, ◌*◌, ◌==◌, ℕ, length};
ghost use Rattle.std.specs.Int.{bit_at};
ghost use Rattle.safe_number.specs.Bytes.{bit_in, little_endian};

/// Returns the bytes of a number: bit `k` of the number is bit `k % 8` of byte `k / 8`, the least significant first.
pub fn bits_of(number: u64) -> [u8; 8]
    ensures { little_endian result ≡ number }
{
    number.to_le_bytes()
}

/// Returns the number that at most 8 bytes make, the least significant first. So `number_of(&bits_of(n))` is `n`.
pub fn number_of(bytes: &[u8]) -> u64
    requires { length bytes.now ≤ 8 }
    ensures { result ≡ little_endian bytes.now }
{
    let mut all = [0u8; 8];
    for (k, byte) in bytes.iter().enumerate() {
        all[k] = *byte;
    }
    number_of_all(all)
}

/// Returns the number that 8 bytes make.
fn number_of_all(bytes: [u8; 8]) -> u64
    ensures { result ≡ little_endian bytes }
{
    u64::from_le_bytes(bytes)
}

/// Returns a bit of bytes, or false if they have no such bit.
#[inline]
pub fn bit_of(bytes: &[u8], k: u16) -> bool
    ensures { result ≡ bit_in bytes.now k }
{
    let k = usize::from(k);
    k / 8 < bytes.len() && bit(bytes, k)
}

/// Returns bit `k` of bytes.
#[inline]
pub(crate) fn bit(bytes: &[u8], k: usize) -> bool
    requires { k < 8 * length bytes.now }
    ensures { result ≡ bit_in bytes.now k }
{
    (bytes[k / 8] >> (k % 8)) & 1 == 1
}

/// Returns a byte whose bits below `k` were read and whose bit `k` is read now; the bits above it are 0.
#[inline]
pub(crate) fn with_next_bit(byte: u8, k: usize, value: bool) -> u8
    requires { k < 8 }
    ensures below { (i : ℕ) → i < k → bit_at result i ≡ bit_at byte i }
    ensures same { (bit_at result k == 1) ≡ value }
    ensures above { (i : ℕ) → i < 8 → k < i → bit_at result i ≡ 0 }
{
    let below = low_bits(byte, k);
    if value { below | (1 << k) } else { below }
}

/// Returns the `k` lowest bits of a byte.
#[inline]
fn low_bits(byte: u8, k: usize) -> u8
    requires { k < 8 }
    ensures below { (i : ℕ) → i < k → bit_at result i ≡ bit_at byte i }
    ensures others { (i : ℕ) → k ≤ i → bit_at result i ≡ 0 }
{
    byte & ((1 << k) - 1)
}
