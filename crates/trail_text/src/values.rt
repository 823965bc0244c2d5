//! Single words, read.
ghost use Rattle.std.specs.Prelude.{◌≡◌, ◌↔◌, ◌<◌, ◌^◌, IsTrue, decimal};
ghost use Rattle.trail_text.specs.Pieces.{Any, IsPlain, Spells};
ghost use Rattle.trail_text.specs.Words.{app_word, offer_word, truth_word};

use suri_base::{App, Offer};

/// Whether a word is this one.
pub fn is(word: &[u8], text: &str) -> bool
    ensures { IsTrue result ↔ (word.now ≡ text.now) }
{
    word == text.as_bytes()
}

// Whether digits begin with no plus, and with no zero but that of `0`.
fn is_plain(word: &[u8]) -> bool
    ensures { IsTrue result ↔ IsPlain word.now }
{
    !word.is_empty() && word[0] != b'+' && (word[0] != b'0' || word.len() == 1)
}

/// The number that a word writes in decimal digits, without leading zeros, where it is below 2 ^ 64.
pub fn number(word: &[u8]) -> Option<u64>
    ensures { Spells decimal (λ n. n < 2 ^ 64) word.now result }
{
    if !is_plain(word) {
        return None;
    }
    match str::from_utf8(word) {
        Ok(text) => text.parse::<u64>().ok(),
        Err(_) => None,
    }
}

/// The truth value that a word is.
pub fn truth(word: &[u8]) -> Option<bool>
    ensures { Spells truth_word Any word.now result }
{
    if is(word, "0") {
        Some(false)
    } else if is(word, "1") {
        Some(true)
    } else {
        None
    }
}

/// What a stream answered, by its word.
pub fn offer(word: &[u8]) -> Option<Offer>
    ensures { Spells offer_word Any word.now result }
{
    if is(word, "inorder") {
        Some(Offer::InOrder)
    } else if is(word, "nothing") {
        Some(Offer::Nothing)
    } else if is(word, "needs") {
        Some(Offer::NeedsSegment)
    } else if is(word, "stopped") {
        Some(Offer::Stopped)
    } else {
        None
    }
}

/// What a flow is taken to bear, by its word.
pub fn app(word: &[u8]) -> Option<App>
    ensures { Spells app_word Any word.now result }
{
    if is(word, "none") {
        Some(App::None)
    } else if is(word, "http") {
        Some(App::Http)
    } else if is(word, "tls") {
        Some(App::Tls)
    } else if is(word, "ssh") {
        Some(App::Ssh)
    } else if is(word, "dns") {
        Some(App::Dns)
    } else {
        None
    }
}
