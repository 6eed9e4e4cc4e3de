//! Decimal text.
ghost use Rattle.std.specs.Prelude.{◌≡◌, ◌≤◌, length, decimal, IfOk};
ghost use Rattle.std.specs.Char.{is_ascii_digit};
ghost use Rattle.std.specs.List.{list_all};
ghost use Rattle.ep_model.specs.declared.decimal.TheConstants.{MAX_DIGITS};
ghost use Rattle.ep_model.specs.Decimal.{number_of};

use crate::NoMemory;
use std::alloc::Global;
use std::str;

/// The greatest number of digits that a number below 2^64 is read from.
const MAX_DIGITS: usize = 20;

/// The number of a text of 1 to 20 digits, where it is below 2^64. Zeros may stand first.
pub fn number_of(text: &[u8]) -> Option<u64>
    ensures { result ≡ number_of text.now }
{
    if text.len() > MAX_DIGITS || !all_digits(text) {
        return None;
    }
    let Ok(digits) = str::from_utf8(text) else {
        return None;
    };
    digits.parse().ok()
}

fn all_digits(text: &[u8]) -> bool
    ensures { result ≡ list_all is_ascii_digit text.now }
{
    text.iter().all(|byte| byte.is_ascii_digit())
}

/// A number's text, without leading zeros.
pub(crate) fn text_of(alloc: Global, number: u64) -> Result<Vec<u8>, NoMemory>
    ensures text { IfOk result (λ v. v.items ≡ decimal number) }
    ensures short { IfOk result (λ v. length v.items ≤ MAX_DIGITS) }
{
    Ok(number.to_string(alloc)?.into_bytes())
}
