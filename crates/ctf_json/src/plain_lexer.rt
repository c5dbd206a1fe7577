//! The tokens of a text without escapes, read in place.
ghost use Rattle.std.specs.Prelude.{◌≡◌, ◌⊎◌, [], None, Some, IfSome, MatchOption, drop, false, true};
ghost use Rattle.json.specs.Align.{is_blank};
ghost use Rattle.json.specs.Lex.{between, class, lex, operator, other};
ghost use Rattle.json.specs.Reads.{token_of};
ghost use Rattle.json.specs.Text.{content, plain};
ghost use Rattle.json.specs.Word.{head, word};
ghost use Rattle.ctf_json.specs.Plain.{HasNoEscape, IsNumber};

use crate::runs::{are_few, blanks_end, byte_at, digits_end, is_digit, plain_end, word_end};
use crate::words::word;
use json::Token;
use std::marker::Model;

/// Contracts see the text from the next token on.
#[derive(Drop)]
pub(crate) struct Lexer<'a> {
    text: &'a str,
    at: usize,
}

impl<'a> Model for Lexer<'a> {
    ghost use Rattle.std.specs.Prelude.{ℕ, List};

    ghost Value = { List ℕ };

    ghost use Rattle.ctf_json.specs.PlainLexer.{lexer_view, IsLexer};

    ghost view = { lexer_view };

    ghost invariant = { IsLexer };
}

impl<'a> Lexer<'a> {
    #[inline(always)]
    pub(crate) fn new(text: &'a str) -> Lexer<'a>
        requires { HasNoEscape text.now }
        ensures { lex between result ≡ lex between text.now }
    {
        let at = blanks_end(text.as_bytes(), 0);
        Lexer { text, at }
    }

    /// The first byte of the next token, or a space at the end.
    #[inline(always)]
    pub(crate) fn peek(&self) -> u8
        ensures value { result ≡ head self.now }
        ensures end { is_blank (class result) ≡ true → self.now ≡ [] }
    {
        byte_at(self.text.as_bytes(), self.at)
    }

    /// Skips a bracket, a comma or a colon.
    #[inline(always)]
    pub(crate) fn skip(&mut self)
        requires { class (head self.old) ≡ operator }
        ensures { lex between self.new ≡ drop 1 (lex between self.old) }
    {
        self.at = blanks_end(self.text.as_bytes(), self.at + 1);
    }

    /// A number or a name. It is not inlined: texts have few that do not directly follow a colon.
    #[inline(never)]
    pub(crate) fn word(&mut self) -> Token<'a>
        requires { class (head self.old) ≡ other }
        ensures value { token_of result ≡ word self.old }
        ensures after { lex between self.new ≡ drop 1 (lex between self.old) }
    {
        if let Some(text) = self.digits() {
            return Token::Number(text);
        }
        let token = word(self.text, self.at);
        let end = word_end(self.text.as_bytes(), self.at + 1);
        self.at = blanks_end(self.text.as_bytes(), end);
        token
    }

    #[inline(always)]
    pub(crate) fn string(&mut self) -> Option<&'a str>
        requires { head self.old ≡ 34 }
        ensures value { MatchOption result (content plain (drop 1 self.old) ≡ None)
            (λ s. content plain (drop 1 self.old) ≡ Some s.now) }
        ensures after { IfSome result (λ _. lex between self.new ≡ drop 1 (lex between self.old)) }
    {
        let text = self.text;
        let start = self.at + 1;
        let stop = plain_end(text.as_bytes(), start);
        if byte_at(text.as_bytes(), stop) != b'"' {
            return None;
        }
        self.at = blanks_end(text.as_bytes(), stop + 1);
        Some(&text[start..stop])
    }

    /// Takes a string, if one of two bytes directly follows it.
    #[inline(always)]
    pub(crate) fn string_before(&mut self, one: u8, other: u8) -> Option<&'a str>
        requires opening { head self.old ≡ 34 }
        requires solid { (is_blank (class one) ≡ false) × (is_blank (class other) ≡ false) }
        ensures value { MatchOption result (self.new ≡ self.old)
            (λ s. content plain (drop 1 self.old) ≡ Some s.now) }
        ensures after { IfSome result (λ _. lex between self.new ≡ drop 1 (lex between self.old)) }
        ensures next { IfSome result (λ _. (head self.new ≡ one) ⊎ (head self.new ≡ other)) }
    {
        let text = self.text;
        let start = self.at + 1;
        let stop = plain_end(text.as_bytes(), start);
        if byte_at(text.as_bytes(), stop) != b'"' {
            return None;
        }
        let next = byte_at(text.as_bytes(), stop + 1);
        if (next != one) & (next != other) {
            return None;
        }
        self.at = stop + 1;
        Some(&text[start..stop])
    }

    /// Takes a number of few digits, if a comma or a brace directly follows it.
    #[inline(always)]
    pub(crate) fn digits(&mut self) -> Option<&'a str>
        ensures value { MatchOption result (self.new ≡ self.old) (λ s. IsNumber self.old s.now) }
        ensures after { IfSome result (λ _. lex between self.new ≡ drop 1 (lex between self.old)) }
    {
        let text = self.text;
        let bytes = text.as_bytes();
        let start = self.at;
        let first = byte_at(bytes, start);
        if !is_digit(first) {
            return None;
        }
        let end = digits_end(bytes, start);
        if !are_few(first, end - start) {
            return None;
        }
        let next = byte_at(bytes, end);
        if (next != b',') & (next != b'}') {
            return None;
        }
        self.at = end;
        Some(&text[start..end])
    }
}
