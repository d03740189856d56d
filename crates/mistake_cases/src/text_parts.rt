//! Parts of a line's text: words, names and numbers at its ends.

/// Whether a character belongs to names and numbers.
pub fn is_word_character(c: char) -> bool {
    c.is_ascii_alphanumeric() || c == '_'
}

/// The word with which a text begins, empty if it begins with none.
pub fn first_word(text: &str) -> &str {
    let tail = text.trim_start_matches(is_word_character);
    text.get(..text.len().saturating_sub(tail.len()))
        .unwrap_or("")
}

/// The word with which a text ends, but for white space. Empty if it ends with none.
pub fn last_word(text: &str) -> &str {
    let text = text.trim_end();
    let head = text.trim_end_matches(is_word_character);
    text.get(head.len()..).unwrap_or("")
}

/// Whether a character belongs to numbers with a point, and to names with points between them.
fn is_part_character(c: char) -> bool {
    is_word_character(c) || c == '.'
}

/// The number or the path with which a text begins, as far as names, digits and points go. Two points end it.
pub fn first_part(text: &str) -> &str {
    let tail = text.trim_start_matches(is_part_character);
    let part = text
        .get(..text.len().saturating_sub(tail.len()))
        .unwrap_or("");
    match part.find("..") {
        Some(end) => part.get(..end).unwrap_or(""),
        None => part,
    }
}

/// The number or the path with which a text ends, but for white space.
pub fn last_part(text: &str) -> &str {
    let text = text.trim_end();
    let head = text.trim_end_matches(is_part_character);
    text.get(head.len()..).unwrap_or("")
}

/// Whether a word begins with a digit.
pub fn is_number(word: &str) -> bool {
    word.starts_with(|c: char| c.is_ascii_digit())
}

/// Whether a word is a name, or a word of the language.
pub fn is_name(word: &str) -> bool {
    !word.is_empty() && !is_number(word)
}

/// The unit behind the digits of a number. Empty if there is none.
pub fn unit_of(number: &str) -> &str {
    number.trim_start_matches(|c: char| c.is_ascii_digit() || c == '.')
}

/// The digits of a number before its unit.
pub fn digits_of(number: &str) -> &str {
    number.strip_suffix(unit_of(number)).unwrap_or(number)
}

/// How many spaces a line begins with.
pub fn indentation(line: &str) -> usize {
    line.len()
        .saturating_sub(line.trim_start_matches(' ').len())
}
