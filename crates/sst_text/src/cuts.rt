//! Where a byte stands in a text, and the text cut there.
ghost use Rattle.std.specs.Prelude.{◌≡◌, ℕ, ◌<◌, List, length, take, drop, None, Some, MatchOption};
ghost use Rattle.std.specs.Option.{option_map};
ghost use Rattle.sst_text.specs.Texts as texts;

use memchr::memchr;

/// Where the first such byte stands.
pub fn first_place(text: &[u8], byte: u8) -> Option<usize>
    ensures { MatchOption result (texts.cut byte text.now ≡ None)
        (λ at. (at < length text.now) × (texts.cut byte text.now ≡ Some (take at text.now, drop 1 (drop at text.now)))) }
{
    memchr(byte, text)
}

/// What stands before the first such byte and what stands after it, where there is one.
pub fn cut(text: &[u8], byte: u8) -> Option<(&[u8], &[u8])>
    ensures { option_map (λ parts. (parts.0.now, parts.1.now)) result ≡ texts.cut byte text.now }
{
    let at = first_place(text, byte)?;
    let (before, rest) = text.split_at(at);
    let (_, after) = rest.split_at(1);
    Some((before, after))
}
