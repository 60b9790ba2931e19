//! The greatest of some numbers, and its index.
ghost use Rattle.std.specs.Prelude.{◌≡◌, ◌≤◌};
ghost use Rattle.model.specs.{greatest, index_of, max_of};

/// Returns the greatest of some numbers, or 0 if there are none.
pub(crate) fn greatest(numbers: &[u32]) -> u32
    ensures { result ≡ greatest numbers.now }
{
    let mut most = 0;
    for number in numbers {
        most = most.max(*number);
    }
    most
}

/// Returns the first index of a number among `numbers`, or their count if it is not among them.
pub(crate) fn place_of(number: u32, numbers: &[u32]) -> usize
    ensures { result ≡ index_of number numbers.now }
{
    for place in 0..numbers.len() {
        if numbers[place] == number {
            return place;
        }
    }
    numbers.len()
}

/// Returns the greatest number of `bits` bits.
pub(crate) fn most_of(bits: u8) -> u32
    requires { bits ≤ 32 }
    ensures { result ≡ max_of bits }
{
    ((1u64 << bits) - 1) as u32
}
