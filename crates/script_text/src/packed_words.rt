// Short words as numbers.
ghost use Rattle.std.specs.Prelude.{◌≡◌};
ghost use Rattle.script_text.specs.PackedWords.{word_number};

/// How many digits a number has room for.
const DIGITS: usize = 16;

/// The number whose digits are the word's bytes, if there are at most 16 and none is 0. Other words have other numbers.
pub fn packed(word: &[u8]) -> Option<u128>
    ensures { result ≡ word_number word.now }
{
    if word.len() > DIGITS {
        return None;
    }
    let mut number = 0u128;
    let mut at = word.len();
    while at > 0 {
        at -= 1;
        let byte = word[at];
        if byte == 0 {
            return None;
        }
        number = number * 256 + u128::from(byte);
    }
    Some(number)
}
