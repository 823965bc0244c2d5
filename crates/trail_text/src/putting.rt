//! Words put behind a text, a space before each.
ghost use Rattle.std.specs.Prelude.{◌≡◌, ◌++◌, [], ◌∷◌, OnOk, decimal, string_bytes};
ghost use Rattle.trail_text.specs.Words.{app_word, behind, offer_word, truth_word};

use itoa::Buffer;
use suri_base::{App, NoMemory, Offer};

/// Puts a text behind a text.
pub fn put(out: &mut String, text: &str) -> Result<(), NoMemory>
    ensures { OnOk result (string_bytes out.new ≡ string_bytes out.old ++ text.now) }
{
    out.push_str(text)?;
    Ok(())
}

/// Puts a number behind a text, in decimal digits.
pub fn put_digits(out: &mut String, number: u64) -> Result<(), NoMemory>
    ensures { OnOk result (string_bytes out.new ≡ string_bytes out.old ++ decimal number) }
{
    put(out, Buffer::new().format(number))
}

/// Puts a number behind words.
pub fn put_number(out: &mut String, number: u64) -> Result<(), NoMemory>
    ensures { OnOk result (string_bytes out.new ≡ string_bytes out.old ++ behind (decimal number ∷ [])) }
{
    put(out, " ")?;
    put_digits(out, number)
}

/// Puts a truth value behind words.
pub fn put_truth(out: &mut String, holds: bool) -> Result<(), NoMemory>
    ensures { OnOk result (string_bytes out.new ≡ string_bytes out.old ++ behind (truth_word holds ∷ [])) }
{
    if holds {
        put(out, " 1")
    } else {
        put(out, " 0")
    }
}

/// Puts what a stream answered behind words.
pub fn put_offer(out: &mut String, offer: Offer) -> Result<(), NoMemory>
    ensures { OnOk result (string_bytes out.new ≡ string_bytes out.old ++ behind (offer_word offer ∷ [])) }
{
    match offer {
        Offer::InOrder => put(out, " inorder"),
        Offer::Nothing => put(out, " nothing"),
        Offer::NeedsSegment => put(out, " needs"),
        Offer::Stopped => put(out, " stopped"),
    }
}

/// Puts what a flow is taken to bear behind words.
pub fn put_app(out: &mut String, app: App) -> Result<(), NoMemory>
    ensures { OnOk result (string_bytes out.new ≡ string_bytes out.old ++ behind (app_word app ∷ [])) }
{
    match app {
        App::None => put(out, " none"),
        App::Http => put(out, " http"),
        App::Tls => put(out, " tls"),
        App::Ssh => put(out, " ssh"),
        App::Dns => put(out, " dns"),
    }
}
