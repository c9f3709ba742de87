//! Digits, and the size that they write.
ghost use Rattle.std.specs.Prelude.{◌≡◌, true};
ghost use Rattle.std.specs.List.{list_all};
ghost use Rattle.std.specs.Char.{is_ascii_digit};
ghost use Rattle.std.specs.Str.Parse.{digits_value};
ghost use Rattle.tf_words.specs.Digits.{is_numeral, cut, more_by};

fn all_digits(digits: &[u8]) -> bool
    ensures { result ≡ list_all is_ascii_digit digits.now }
{
    digits.iter().all(|byte| byte.is_ascii_digit())
}

/// Whether the word is of digits alone, and of one at least.
pub fn is_numeral(digits: &[u8]) -> bool
    ensures { result ≡ is_numeral digits.now }
{
    !digits.is_empty() && all_digits(digits)
}

/// A size with one digit more, or the greatest number of 64 bits if that is less.
pub fn with_digit(size: u64, digit: u8) -> u64
    requires { is_ascii_digit digit ≡ true }
    ensures { result ≡ cut (more_by size digit) }
{
    size.saturating_mul(10)
        .saturating_add(u64::from(digit - b'0'))
}

/// What the digits write, or the greatest number of 64 bits if that is less.
pub(crate) fn size_of(digits: &[u8]) -> u64
    requires { list_all is_ascii_digit digits.now ≡ true }
    ensures { result ≡ cut (digits_value 10 digits.now) }
{
    let mut size: u64 = 0;
    for byte in digits {
        size = with_digit(size, *byte);
    }
    size
}
