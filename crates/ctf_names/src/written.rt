//! Names as they are written, with keywords in front and stars at the end.
ghost use Rattle.std.specs.Prelude.{◌≡◌, ◌≤◌, length, drop, option_copied, Some, None, if◌then◌else◌};
ghost use Rattle.std.specs.List.{count_by};
ghost use Rattle.ctf_model.specs.names.Lookups.{base as base_of, begins_with, is_no_name as is_none, is_star as star, is_star_or_blank as star_or_blank, written_name as written_of};
ghost use Rattle.ctf_names.specs.Writing.{written_in};

use crate::sorts::Sort;

/// A name, and the keyword in front of it.
#[derive(Clone, Copy)]
pub(crate) struct NameParts<'a> {
    pub(crate) sort: Sort,
    pub(crate) name: &'a [u8],
}

fn is_star_or_blank(b: u8) -> bool
    ensures { result ≡ star_or_blank b }
{
    b == b'*' || b == b' '
}

/// The text before the last stars and blanks.
pub(crate) fn base(text: &[u8]) -> &[u8]
    ensures base { result.now ≡ base_of text.now }
    ensures inside { length result.now ≤ length text.now }
{
    for behind in 0..text.len() {
        let end = text.len() - behind;
        if !is_star_or_blank(text[end - 1]) {
            return &text[..end];
        }
    }
    &[]
}

/// The number of stars.
pub(crate) fn stars(text: &[u8]) -> usize
    ensures { result ≡ count_by star text.now }
{
    let mut count = 0;
    for b in text {
        if *b == b'*' {
            count += 1;
        }
    }
    count
}

/// Whether a base is empty or begins with a blank.
pub(crate) fn is_no_name(base: &[u8]) -> bool
    ensures { result ≡ is_none base.now }
{
    match base.first() {
        Some(b) => *b == b' ',
        None => true,
    }
}

/// The rest of the text after a word, if the text begins with the word.
fn behind<'a>(text: &'a [u8], word: &[u8]) -> Option<&'a [u8]>
    ensures { option_copied result ≡ (if begins_with word.now text.now
        then Some (drop (length word.now) text.now) else None) }
{
    if text.len() < word.len() {
        return None;
    }
    if &text[..word.len()] == word {
        Some(&text[word.len()..])
    } else {
        None
    }
}

/// A base as a keyword and a name.
pub(crate) fn written(base: &[u8]) -> NameParts<'_>
    ensures { written_in result ≡ written_of base.now }
{
    if let Some(name) = behind(base, b"struct ") {
        return NameParts {
            sort: Sort::Struct,
            name,
        };
    }
    if let Some(name) = behind(base, b"union ") {
        return NameParts {
            sort: Sort::Union,
            name,
        };
    }
    if let Some(name) = behind(base, b"enum ") {
        return NameParts {
            sort: Sort::Enum,
            name,
        };
    }
    NameParts {
        sort: Sort::Plain,
        name: base,
    }
}
