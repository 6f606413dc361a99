//! The number that a text begins with, counted up where it stands.
use super::{TextLine, digits_of};
use itoa::write_digits;

impl TextLine {
    ghost use Rattle.std.specs.Prelude.{◌≡◌, ◌+◌, ◌-◌, ◌%◌, ◌^◌, ◌<◌, ◌≤◌, ◌++◌, true, false, length, take, drop, decimal};

    /// The number that the text begins with becomes the next one, and what comes after it stays where it lies. It doesn't
    /// where the next one has more digits.
    #[inline(always)]
    pub(crate) fn count_up(&mut self, digits: usize, n: u32) -> bool
        requires all { digits ≡ length (decimal n) }
        requires number { take digits self.old ≡ decimal n }
        requires fits { n + 1 < 2 ^ 32 }
        ensures counted { result ≡ true → (digits ≡ length (decimal (n + 1)))
            × (self.new ≡ decimal (n + 1) ++ drop digits self.old) }
        ensures same { result ≡ false → self.new ≡ self.old }
    {
        if self.step_up(digits, n) {
            return true;
        }
        self.count_over(digits, n + 1)
    }

    /// The same where the last digit alone becomes another, and else not.
    #[inline(always)]
    pub(crate) fn step_up(&mut self, digits: usize, n: u32) -> bool
        requires all { digits ≡ length (decimal n) }
        requires number { take digits self.old ≡ decimal n }
        requires fits { n + 1 < 2 ^ 32 }
        ensures counted { result ≡ true → (digits ≡ length (decimal (n + 1)))
            × (self.new ≡ decimal (n + 1) ++ drop digits self.old) }
        ensures same { result ≡ false → self.new ≡ self.old }
    {
        if n < 10 {
            return false;
        }
        let last = self.last_digit(digits, n);
        if last == b'9' {
            return false;
        }
        self.put_last_digit(digits, n + 1, last + 1);
        true
    }

    /// The last digit of the number that the text begins with.
    #[inline(always)]
    fn last_digit(&self, digits: usize, n: u32) -> u8
        requires long { 10 ≤ n }
        requires all { digits ≡ length (decimal n) }
        requires number { take digits self.now ≡ decimal n }
        ensures { result ≡ 48 + n % 10 }
    {
        self.bytes[digits - 1]
    }

    /// The number before, which the text begins with, becomes the number, of which only the last digit is another.
    #[inline(always)]
    fn put_last_digit(&mut self, digits: usize, n: u32, digit: u8)
        requires long { 10 ≤ n }
        requires other { 0 < n % 10 }
        requires last { digit ≡ 48 + n % 10 }
        requires all { digits ≡ length (decimal (n - 1)) }
        requires before { take digits self.old ≡ decimal (n - 1) }
        ensures all { digits ≡ length (decimal n) }
        ensures number { self.new ≡ decimal n ++ drop digits self.old }
    {
        self.bytes[digits - 1] = digit;
    }

    /// The digits that the text begins with become those of the number, where it has as many.
    #[inline(never)]
    fn count_over(&mut self, digits: usize, n: u32) -> bool
        requires within { digits ≤ length self.old }
        ensures counted { result ≡ true → (digits ≡ length (decimal n))
            × (self.new ≡ decimal n ++ drop digits self.old) }
        ensures same { result ≡ false → self.new ≡ self.old }
    {
        if digits_of(n) != digits {
            return false;
        }
        write_digits(n as u64, &mut self.bytes, digits);
        true
    }
}
