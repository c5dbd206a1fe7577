//! The keys of a line's fields.
ghost use Rattle.std.specs.Prelude.{◌≡◌, ◌<◌, IfSome, Some, length, map};
ghost use Rattle.std.specs.Str.{bytes_eq};
ghost use Rattle.ctf_json.specs.Keys.{place_in, wanted_at};

use crate::wanted::Wanted;

/// Every key that requests use. The keys of most lines come first.
pub const KEYS: &[&str] = &[
    "s", "op", "d", "t", "name", "text", "from", "count", "sym", "bytes", "section", "offset",
    "names", "what", "type", "value", "size", "encoding", "bits", "contents", "index", "args",
    "tag", "root", "last", "model", "parent", "parname", "parlabel", "owner",
];

/// The number of these keys.
pub(crate) const COUNT: usize = 30;

/// Whether a name is a key. Both are short, and mostly differ in the first byte.
#[inline(always)]
pub(crate) fn is_key(name: &str, key: &str) -> bool
    ensures { result ≡ bytes_eq name.now key.now }
{
    let name = name.as_bytes();
    let key = key.as_bytes();
    if name.len() != key.len() {
        return false;
    }
    for at in 0..name.len() {
        if name[at] != key[at] {
            return false;
        }
    }
    true
}

/// The index of a name among the keys. It takes constant time; for a constant name, the compiler
/// computes it.
#[inline(always)]
pub(crate) fn place_of(name: &str) -> Option<usize>
    ensures place { result ≡ place_in name.now (map (λ key. key.now) KEYS.now) }
    ensures inside { IfSome result (λ place. place < 30) }
{
    match name.as_bytes() {
        b"s" => Some(0),
        b"d" => Some(2),
        b"t" => Some(3),
        b"op" => Some(1),
        b"name" => Some(4),
        b"text" => Some(5),
        b"from" => Some(6),
        b"sym" => Some(8),
        b"what" => Some(13),
        b"type" => Some(14),
        b"size" => Some(16),
        b"bits" => Some(18),
        b"args" => Some(21),
        b"tag" => Some(22),
        b"root" => Some(23),
        b"last" => Some(24),
        _ => place_of_longer(name),
    }
}

/// The index of a key, if the name is that key.
#[inline(always)]
#[tactic(auto, using(crate::proofs::Places::same_place))]
fn place_at(name: &str, key: &str, place: usize) -> Option<usize>
    requires place { place_in key.now (map (λ key. key.now) KEYS.now) ≡ Some place }
    requires inside { place < 30 }
    ensures place { IfSome result
        (λ place. Some place ≡ place_in name.now (map (λ key. key.now) KEYS.now)) }
    ensures inside { IfSome result (λ place. place < 30) }
{
    if is_key(name, key) { Some(place) } else { None }
}

/// The same for keys of more than four letters.
#[inline(always)]
fn place_of_longer(name: &str) -> Option<usize>
    ensures place { result ≡ place_in name.now (map (λ key. key.now) KEYS.now) }
    ensures inside { IfSome result (λ place. place < 30) }
{
    if let Some(place) = place_at(name, "bytes", 9) {
        return Some(place);
    }
    if let Some(place) = place_at(name, "section", 10) {
        return Some(place);
    }
    if let Some(place) = place_at(name, "count", 7) {
        return Some(place);
    }
    if let Some(place) = place_at(name, "offset", 11) {
        return Some(place);
    }
    if let Some(place) = place_at(name, "encoding", 17) {
        return Some(place);
    }
    if let Some(place) = place_at(name, "owner", 29) {
        return Some(place);
    }
    if let Some(place) = place_at(name, "value", 15) {
        return Some(place);
    }
    if let Some(place) = place_at(name, "model", 25) {
        return Some(place);
    }
    if let Some(place) = place_at(name, "names", 12) {
        return Some(place);
    }
    if let Some(place) = place_at(name, "parent", 26) {
        return Some(place);
    }
    if let Some(place) = place_at(name, "parname", 27) {
        return Some(place);
    }
    if let Some(place) = place_at(name, "parlabel", 28) {
        return Some(place);
    }
    if let Some(place) = place_at(name, "contents", 19) {
        return Some(place);
    }
    if let Some(place) = place_at(name, "index", 20) {
        return Some(place);
    }
    place_among(name, KEYS)
}

/// The index of a name among these keys.
#[inline(never)]
fn place_among(name: &str, keys: &[&str]) -> Option<usize>
    ensures place { result ≡ place_in name.now (map (λ key. key.now) keys.now) }
    ensures inside { IfSome result (λ place. place < length keys.now) }
{
    for place in 0..keys.len() {
        if is_key(name, keys[place]) {
            return Some(place);
        }
    }
    None
}

/// Which list a key may have.
#[inline(always)]
pub(crate) fn wanted_list(key: &str) -> Wanted
    ensures { result ≡ wanted_at key.now }
{
    if is_key(key, "names") {
        return Wanted::Texts;
    }
    if is_key(key, "args") {
        return Wanted::Numbers;
    }
    Wanted::Nothing
}
