//! The words of a line, read one after another.
ghost use Rattle.std.specs.Prelude.{◌≡◌, ◌<◌, ◌^◌, ◌∷◌, [], Bool, List, ℕ, IfSome, decimal};
ghost use Rattle.suri_base.specs.declared.app.App.{App};
ghost use Rattle.suri_base.specs.declared.stream.Offer.{Offer};
ghost use Rattle.trail_text.specs.Bounds.{Fits};
ghost use Rattle.trail_text.specs.Pieces.{Any, Reads, Spells, last};
ghost use Rattle.trail_text.specs.Words.{app_word, offer_word, truth_word};

use crate::pieces::Pieces;
use crate::values::{app, number, offer, truth};
use suri_base::{App, Offer};

/// Reads a number below 2 ^ 64.
pub fn next_large(words: &mut Pieces) -> Option<u64>
    ensures { Reads decimal (λ n. n < 2 ^ 64) words.old words.new result }
{
    match words.take() {
        Some(word) => number(word),
        None => None,
    }
}

/// Reads a number below 2 ^ 32.
pub fn next_number(words: &mut Pieces) -> Option<u32>
    ensures { Reads decimal Fits words.old words.new result }
{
    match next_large(words) {
        Some(n) => u32::try_from(n).ok(),
        None => None,
    }
}

/// Reads a truth value.
pub fn next_truth(words: &mut Pieces) -> Option<bool>
    ensures { Reads truth_word Any words.old words.new result }
{
    match words.take() {
        Some(word) => truth(word),
        None => None,
    }
}

/// Reads what a stream answered.
pub fn next_offer(words: &mut Pieces) -> Option<Offer>
    ensures { Reads offer_word Any words.old words.new result }
{
    match words.take() {
        Some(word) => offer(word),
        None => None,
    }
}

/// Reads what a flow is taken to bear.
pub fn next_app(words: &mut Pieces) -> Option<App>
    ensures { Reads app_word Any words.old words.new result }
{
    match words.take() {
        Some(word) => app(word),
        None => None,
    }
}

/// Reads a number, where no word follows.
pub fn one(words: &mut Pieces) -> Option<u32>
    ensures { Spells (last decimal) Fits words.old result }
{
    match next_number(words) {
        Some(n) if words.is_done() => Some(n),
        _ => None,
    }
}

/// Reads two numbers, where no word follows.
pub fn two(words: &mut Pieces) -> Option<(u32, u32)>
    ensures some { IfSome result (λ p. Fits p.0 × Fits p.1 × (words.old ≡ decimal p.0 ∷ decimal p.1 ∷ [])) }
    ensures each { (a b : ℕ) → Fits a → Fits b → words.old ≡ decimal a ∷ decimal b ∷ [] → result ≡ Some (a, b) }
{
    let Some(first) = next_number(words) else {
        return None;
    };
    let Some(second) = one(words) else {
        return None;
    };
    Some((first, second))
}

/// Reads three numbers, where no word follows.
pub fn three(words: &mut Pieces) -> Option<(u32, u32, u32)>
    ensures some { IfSome result (λ p. Fits p.0 × Fits p.1 × Fits p.2 × (words.old ≡ decimal p.0 ∷ decimal p.1 ∷ decimal p.2 ∷ [])) }
    ensures each { (a b d : ℕ) → Fits a → Fits b → Fits d → words.old ≡ decimal a ∷ decimal b ∷ decimal d ∷ [] → result ≡ Some (a, b, d) }
{
    let Some(first) = next_number(words) else {
        return None;
    };
    let Some((second, third)) = two(words) else {
        return None;
    };
    Some((first, second, third))
}

/// Reads a truth value, where no word follows.
pub fn only_truth(words: &mut Pieces) -> Option<bool>
    ensures { Spells (last truth_word) Any words.old result }
{
    match next_truth(words) {
        Some(truth) if words.is_done() => Some(truth),
        _ => None,
    }
}

/// Reads a number and a truth value, where no word follows.
pub fn number_truth(words: &mut Pieces) -> Option<(u32, bool)>
    ensures some { IfSome result (λ p. Fits p.0 × (words.old ≡ decimal p.0 ∷ truth_word p.1 ∷ [])) }
    ensures each { (a : ℕ) (b : Bool) → Fits a → words.old ≡ decimal a ∷ truth_word b ∷ [] → result ≡ Some (a, b) }
{
    let Some(first) = next_number(words) else {
        return None;
    };
    let Some(second) = only_truth(words) else {
        return None;
    };
    Some((first, second))
}

/// Reads what a stream answered, where no word follows.
pub fn only_offer(words: &mut Pieces) -> Option<Offer>
    ensures { Spells (last offer_word) Any words.old result }
{
    match next_offer(words) {
        Some(offer) if words.is_done() => Some(offer),
        _ => None,
    }
}

/// Reads a number and what a stream answered, where no word follows.
pub fn number_offer(words: &mut Pieces) -> Option<(u32, Offer)>
    ensures some { IfSome result (λ p. Fits p.0 × (words.old ≡ decimal p.0 ∷ offer_word p.1 ∷ [])) }
    ensures each { (a : ℕ) (b : Offer) → Fits a → words.old ≡ decimal a ∷ offer_word b ∷ [] → result ≡ Some (a, b) }
{
    let Some(first) = next_number(words) else {
        return None;
    };
    let Some(second) = only_offer(words) else {
        return None;
    };
    Some((first, second))
}

/// Reads what a flow is taken to bear, where no word follows.
pub fn only_app(words: &mut Pieces) -> Option<App>
    ensures { Spells (last app_word) Any words.old result }
{
    match next_app(words) {
        Some(app) if words.is_done() => Some(app),
        _ => None,
    }
}

/// Reads a number and what a flow is taken to bear, where no word follows.
pub fn number_app(words: &mut Pieces) -> Option<(u32, App)>
    ensures some { IfSome result (λ p. Fits p.0 × (words.old ≡ decimal p.0 ∷ app_word p.1 ∷ [])) }
    ensures each { (a : ℕ) (b : App) → Fits a → words.old ≡ decimal a ∷ app_word b ∷ [] → result ≡ Some (a, b) }
{
    let Some(first) = next_number(words) else {
        return None;
    };
    let Some(second) = only_app(words) else {
        return None;
    };
    Some((first, second))
}

/// Reads a number, whether there was an emergency, and how the pool's history was seen.
pub fn next_mode(words: &mut Pieces) -> Option<(u32, bool, u64)>
    ensures some { IfSome result (λ p. Fits p.0 × (p.2 < 2 ^ 64)
        × (words.old ≡ decimal p.0 ∷ truth_word p.1 ∷ decimal p.2 ∷ words.new)) }
    ensures each { (a : ℕ) (b : Bool) (d : ℕ) (rest : List (List ℕ)) → Fits a → d < 2 ^ 64
        → words.old ≡ decimal a ∷ truth_word b ∷ decimal d ∷ rest → result ≡ Some (a, b, d) }
{
    let Some(number) = next_number(words) else {
        return None;
    };
    let Some(emergency) = next_truth(words) else {
        return None;
    };
    let Some(seen) = next_large(words) else {
        return None;
    };
    Some((number, emergency, seen))
}

/// Reads such words and a number, where no word follows.
pub fn mode_number(words: &mut Pieces) -> Option<(u32, bool, u64, u32)>
    ensures some { IfSome result (λ p. Fits p.0 × (p.2 < 2 ^ 64) × Fits p.3
        × (words.old ≡ decimal p.0 ∷ truth_word p.1 ∷ decimal p.2 ∷ decimal p.3 ∷ [])) }
    ensures each { (a : ℕ) (b : Bool) (d e : ℕ) → Fits a → d < 2 ^ 64 → Fits e
        → words.old ≡ decimal a ∷ truth_word b ∷ decimal d ∷ decimal e ∷ [] → result ≡ Some (a, b, d, e) }
{
    let Some((number, emergency, seen)) = next_mode(words) else {
        return None;
    };
    let Some(last) = one(words) else {
        return None;
    };
    Some((number, emergency, seen, last))
}

/// Reads such words, a number, and what a stream answered, where no word follows.
pub fn mode_offer(words: &mut Pieces) -> Option<(u32, bool, u64, u32, Offer)>
    ensures some { IfSome result (λ p. Fits p.0 × (p.2 < 2 ^ 64) × Fits p.3
        × (words.old ≡ decimal p.0 ∷ truth_word p.1 ∷ decimal p.2 ∷ decimal p.3 ∷ offer_word p.4 ∷ [])) }
    ensures each { (a : ℕ) (b : Bool) (d e : ℕ) (o : Offer) → Fits a → d < 2 ^ 64 → Fits e
        → words.old ≡ decimal a ∷ truth_word b ∷ decimal d ∷ decimal e ∷ offer_word o ∷ [] → result ≡ Some (a, b, d, e, o) }
{
    let Some((number, emergency, seen)) = next_mode(words) else {
        return None;
    };
    let Some((run, offer)) = number_offer(words) else {
        return None;
    };
    Some((number, emergency, seen, run, offer))
}

/// Reads two numbers and a truth value, where no word follows.
pub fn two_truth(words: &mut Pieces) -> Option<(u32, u32, bool)>
    ensures some { IfSome result (λ p. Fits p.0 × Fits p.1 × (words.old ≡ decimal p.0 ∷ decimal p.1 ∷ truth_word p.2 ∷ [])) }
    ensures each { (a b : ℕ) (d : Bool) → Fits a → Fits b → words.old ≡ decimal a ∷ decimal b ∷ truth_word d ∷ []
        → result ≡ Some (a, b, d) }
{
    let Some(first) = next_number(words) else {
        return None;
    };
    let Some((second, third)) = number_truth(words) else {
        return None;
    };
    Some((first, second, third))
}

/// Reads a number and what a flow is taken to bear.
pub fn next_app_of(words: &mut Pieces) -> Option<(u32, App)>
    ensures some { IfSome result (λ p. Fits p.0 × (words.old ≡ decimal p.0 ∷ app_word p.1 ∷ words.new)) }
    ensures each { (a : ℕ) (b : App) (rest : List (List ℕ)) → Fits a → words.old ≡ decimal a ∷ app_word b ∷ rest
        → result ≡ Some (a, b) }
{
    let Some(number) = next_number(words) else {
        return None;
    };
    let Some(app) = next_app(words) else {
        return None;
    };
    Some((number, app))
}

/// Reads such words, two numbers and a truth value, where no word follows.
pub fn number_app_ended(words: &mut Pieces) -> Option<(u32, App, u32, u32, bool)>
    ensures some { IfSome result (λ p. Fits p.0 × Fits p.2 × Fits p.3
        × (words.old ≡ decimal p.0 ∷ app_word p.1 ∷ decimal p.2 ∷ decimal p.3 ∷ truth_word p.4 ∷ [])) }
    ensures each { (a : ℕ) (b : App) (d e : ℕ) (o : Bool) → Fits a → Fits d → Fits e
        → words.old ≡ decimal a ∷ app_word b ∷ decimal d ∷ decimal e ∷ truth_word o ∷ [] → result ≡ Some (a, b, d, e, o) }
{
    let Some((number, app)) = next_app_of(words) else {
        return None;
    };
    let Some((run, freed, ended)) = two_truth(words) else {
        return None;
    };
    Some((number, app, run, freed, ended))
}
