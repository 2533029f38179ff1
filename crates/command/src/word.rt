// The words of a text (crate::text): one space stands between two of them.
ghost use Rattle.std.specs.Prelude.{◌≡◌, suc, ◌≤◌, length, drop, position, eqb};
ghost use Rattle.command.specs.Words.{space_at, word_at, word_count};

use crate::text::SPACE;

fn first_space(text: &[u8]) -> Option<usize>
    ensures { result ≡ position (λ b. eqb b 32) text.now }
{
    text.iter().position(|byte| *byte == SPACE)
}

// The length of the first word: the next space, or the text's end, ends it.
fn first_length(text: &[u8]) -> usize
    ensures value { result ≡ space_at text.now }
    ensures within { result ≤ length text.now }
{
    first_space(text).unwrap_or(text.len())
}

// Word k of the text, the first being 0; empty where there is none.
pub fn word(text: &[u8], k: usize) -> &[u8]
    ensures { result.now ≡ word_at k text.now }
{
    let mut rest = text;
    for _passed in 0..k {
        rest = behind_first(rest);
    }
    &rest[..first_length(rest)]
}

// The text behind its first word; empty where there is none.
pub fn behind_first(text: &[u8]) -> &[u8]
    ensures { result.now ≡ drop (suc (space_at text.now)) text.now }
{
    let end = first_length(text);
    if end < text.len() {
        return &text[end + 1..];
    }
    &[]
}

pub fn count(text: &[u8]) -> usize
    ensures { result ≡ word_count text.now }
{
    if text.is_empty() {
        return 0;
    }
    text.iter().filter(|byte| **byte == SPACE).count() + 1
}
