// The name of a file at the end of a program's words.
ghost use Rattle.named_input.specs.Files.{has_file, is_file_name, is_number};
ghost use Rattle.std.specs.Prelude.{◌≡◌, ◌++◌, is_some, map, option_to_list, string_bytes};

// Whether a word has nothing but digits.
fn is_number(word: &[u8]) -> bool
    ensures { result ≡ is_number word.now }
{
    word.iter().all(|b| b.is_ascii_digit())
}

// Whether a word is a file's name: it is not empty, no option, and no number.
fn is_file_name(word: &[u8]) -> bool
    ensures { result ≡ is_file_name word.now }
{
    match word {
        [] => false,
        [first, ..] => *first != b'-' && !is_number(word),
    }
}

// Whether the last word, if it comes after the first `before`, is a file's name.
fn has_file(words: &Vec<String>, before: usize) -> bool
    ensures { result ≡ has_file before (map string_bytes words.now.items) }
{
    match words.last() {
        Some(word) => before < words.len() && is_file_name(word.as_bytes()),
        None => false,
    }
}

/// Takes the name of a file from a program's words, which are those after its own name. Only the last word can be one, it comes after
/// the first `before`, and it doesn't begin with `-` and isn't made of digits alone; such a file is named by `./` and its name.
pub fn take_file(words: &mut Vec<String>, before: usize) -> Option<String>
    ensures file { is_some result ≡ has_file before (map string_bytes words.old.items) }
    ensures words { words.old.items ≡ words.new.items ++ option_to_list result }
{
    if has_file(words, before) {
        words.pop()
    } else {
        None
    }
}
