ghost use Rattle.std.specs.Prelude.{◌≡◌, map, string_bytes};
ghost use Rattle.command_words.specs.Seen.{seen};
ghost use Rattle.command_words.specs.Words.{HasRanges, explain_wanted, topic_wanted};

use crate::requests::Request;
use fault_texts::topic_named;

/// Reads the words after `explain`.
pub fn read_explain(words: &[String]) -> Request<'_>
    ensures request { seen result ≡ explain_wanted (map string_bytes words.now) }
    ensures ranges { HasRanges (seen result) }
{
    match words {
        [] => Request::Topics,
        [word] => read_topic(word.as_str()),
        _ => Request::Refused,
    }
}

/// Reads the word of a topic.
fn read_topic<'a>(word: &str) -> Request<'a>
    ensures request { seen result ≡ topic_wanted word.now }
    ensures ranges { HasRanges (seen result) }
{
    match word {
        "help" | "--help" | "-h" => Request::Topics,
        _ => match topic_named(word) {
            Some(topic) => Request::Explain(topic),
            None => Request::Refused,
        },
    }
}
