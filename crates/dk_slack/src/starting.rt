//! The numbers of the levels that a table begins with.
ghost use Rattle.std.specs.Prelude.{◌≡◌, ◌≤◌, length, replicate};

use arrayvec::ArrayVec;
use dk_config::MAX_LEVELS;

/// A 0 for each of so many levels.
pub fn zeros(levels: usize) -> ArrayVec<u32, MAX_LEVELS>
    requires { levels ≤ MAX_LEVELS }
    ensures { result.items ≡ replicate levels 0 }
{
    let mut zeros = ArrayVec::new();
    for level in 0..levels {
        zeros.push(0);
    }
    zeros
}

/// The same numbers, of as many levels.
pub fn listed(numbers: &[u32]) -> ArrayVec<u32, MAX_LEVELS>
    requires { length numbers.now ≤ MAX_LEVELS }
    ensures { result.items ≡ numbers.now }
{
    let mut list = ArrayVec::new();
    for number in numbers {
        list.push(*number);
    }
    list
}
