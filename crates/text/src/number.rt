// Decimal numbers of 32 bits, read from a word.
ghost use Rattle.std.specs.Prelude.{◌≡◌};
ghost use Rattle.text.specs.Numbers.{number_of};

// Why a word is no number.
#[derive(Clone, Copy)]
pub enum NumberError {
    NotANumber,
    TooLarge,
}

// The number that a word says. What does not fit 64 bits stays at the largest number of these, which is too large whatever
// digits follow. The library's `parse` would take a sign, too.
pub fn read_number(word: &[u8]) -> Result<u32, NumberError>
    ensures { result ≡ number_of word.now }
{
    if word.is_empty() {
        return Err(NumberError::NotANumber);
    }
    let mut value: u64 = 0;
    for byte in word {
        if !byte.is_ascii_digit() {
            return Err(NumberError::NotANumber);
        }
        let digit = u64::from(*byte - b'0');
        value = value.saturating_mul(10).saturating_add(digit);
    }
    u32::try_from(value).map_err(|_| NumberError::TooLarge)
}
