//! What the text at a place asks for.

use mistake_cases::{View, last_word};

/// What is asked for at a place.
#[derive(Debug, Clone, Copy)]
pub enum Asks {
    Duration,
    Lane,
    /// A position, or a distance between two.
    Length,
}

/// Whether a duration is asked for at a place.
pub fn is_duration(view: &View<'_>) -> bool {
    matches!(asked_at(view), Some((Asks::Duration, _)))
}

/// What is asked for at a place, and the text that says how much.
pub fn asked_at<'a>(view: &View<'a>) -> Option<(Asks, &'a str)> {
    let before = view.before.trim_end();
    if let Some(head) = before.strip_suffix(':') {
        return if last_word(head) == "duration" {
            Some((Asks::Duration, view.onward))
        } else {
            None
        };
    }
    if let Some(head) = before.strip_suffix('(') {
        return if last_word(head) == "elapsed" {
            Some((Asks::Duration, view.onward))
        } else {
            None
        };
    }
    let value = view.behind().strip_prefix('(')?.trim_start();
    match view.word() {
        "lane" => Some((Asks::Lane, value)),
        "position" => Some((Asks::Length, value)),
        _ => None,
    }
}
