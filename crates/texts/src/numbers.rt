ghost use Rattle.std.specs.Prelude.{◌≡◌, ℕ, ◌<◌, ◌≤◌, ◌↔◌, length, IfSome, Some, Decides, slice_index};
ghost use Rattle.graggle.specs.Numbers.{Numeral, number};

// Whether a zero stands before other bytes.
fn has_leading_zero(text: &[u8]) -> bool
    ensures { Decides result ((1 < length text.now) × (slice_index text.now 0 ≡ 48)) }
{
    1 < text.len() && text[0] == b'0'
}

// The decimal number that the text is, from `least` to `most`. A leading zero is refused, but for the number 0 itself.
pub fn read_number_from(text: &[u8], least: u32, most: u32) -> Option<u32>
    ensures reads { result ≡ number least most text.now }
    ensures means { (n : ℕ) → (result ≡ Some n) ↔ Numeral least most text.now n }
{
    if text.is_empty() {
        return None;
    }
    if has_leading_zero(text) {
        return None;
    }
    let mut number: u64 = 0;
    for digit in text {
        if !digit.is_ascii_digit() {
            return None;
        }
        number = number * 10 + u64::from(*digit - b'0');
        if u64::from(most) < number {
            return None;
        }
    }
    if number < u64::from(least) {
        return None;
    }
    Some(number as u32)
}

// The decimal number that the text is, at most `most`. A leading zero is refused, but for the number 0 itself.
pub fn read_number(text: &[u8], most: u32) -> Option<u32>
    ensures within { IfSome result (λ n. n ≤ most) }
    ensures reads { result ≡ number 0 most text.now }
    ensures means { (n : ℕ) → (result ≡ Some n) ↔ Numeral 0 most text.now n }
{
    read_number_from(text, 0, most)
}
