//! Hashes and ranks of names, and comparison with a text.
ghost use Rattle.std.specs.Prelude.{◌≡◌, ◌+◌, ◌*◌, ◌<◌, ◌≤◌, ◌^◌, length};
ghost use Rattle.ctf_order.specs.Naming.{naming};
ghost use Rattle.ctf_order.specs.Names.{hash as hash_of, hash_of_bytes, hash_of_words, is_text as is_the_text, mix as mixed_of, rank as rank_of};

use crate::texts::Texts;
use ctf_sections::bytes::u64_at;

/// How many bytes at the front of a name are hashed, besides its last eight.
const FRONT: usize = 2048;

/// The bound of a hash.
const HALF: u64 = 1 << 32;

/// Odd, and without a pattern: the high bits of a product with it depend on all others.
const FACTOR: u64 = 0x9e37_79b9_7f4a_7c15;

/// The hash after one more word: the high half of a product, so it is below 2^32.
fn mix(hash: u64, word: u64) -> u64
    ensures below { result < 2 ^ 32 }
    ensures is { result ≡ mixed_of hash word }
{
    hash.wrapping_add(word).wrapping_mul(FACTOR) >> 32
}

/// The hash of a name of less than eight bytes.
fn bytes_hash(name: &[u8]) -> u64
    ensures below { result < 2 ^ 32 }
    ensures is { result ≡ hash_of_bytes name.now }
{
    let mut hash = 0;
    for byte in name {
        hash = mix(hash, u64::from(*byte));
    }
    hash
}

/// The hash of a longer name: of its last eight bytes, and then of so many words at its front.
fn words_hash(name: &[u8], words: usize) -> u64
    requires long { 8 ≤ length name.now }
    requires inside { words * 8 ≤ length name.now }
    ensures below { result < 2 ^ 32 }
    ensures is { result ≡ hash_of_words name.now words }
{
    let mut hash = mix(0, u64_at(name, name.len() - 8));
    for word in 0..words {
        hash = mix(hash, u64_at(name, word * 8));
    }
    hash
}

/// The hash of a name, below 2^32. It reads at most 2,056 bytes, eight at a time: all bytes of a
/// name that has no more.
pub fn hash(name: &[u8]) -> u64
    ensures below { result < 2 ^ 32 }
    ensures is { result ≡ hash_of name.now }
{
    if name.len() < 8 {
        return bytes_hash(name);
    }
    words_hash(name, name.len().min(FRONT) / 8)
}

/// The rank of a name, by which names are sorted. It reads at most 2,056 bytes.
#[tactic(auto, unfolding(crate::specs::Names::rank))]
pub(crate) fn rank(name: &[u8]) -> u64
    ensures { result ≡ rank_of name.now }
{
    hash(name) * HALF + name.len() as u64 % HALF
}

/// Whether a reference refers to this name. It reads at most one byte more than the name has.
pub(crate) fn is_named(texts: &Texts<'_>, reference: u32, text: &[u8]) -> bool
    ensures { result ≡ is_the_text (naming texts.now reference) text.now }
{
    match texts.short_name(reference, text.len()) {
        Some(name) => name == text,
        None => false,
    }
}
