//! A pull reader of a text without escapes.
ghost use Rattle.std.specs.Prelude.{◌≡◌, ◌≢◌, ◌⊎◌, [], ◌∷◌, false, None, Some, MatchOption, MatchResult, option_map};
ghost use Rattle.std.specs.Bool.{MatchBool};
ghost use Rattle.json.specs.Align.{is_blank, is_good as good};
ghost use Rattle.json.specs.Json.{after_end_array, read_key};
ghost use Rattle.json.specs.Lex.{after_value, between, class, lex, punctuate, tokens};
ghost use Rattle.json.specs.Reads.{Yields, token_of};
ghost use Rattle.json.specs.Token as spec;
ghost use Rattle.json.specs.Word.{head};
ghost use Rattle.ctf_json.specs.Plain.{HasNoEscape};
ghost use Rattle.ctf_json.specs.PlainReader.{Begins, BeginsField, Closes, IsField, IsMember, NotBeforeComma, begins_at, closes_at, refused_at, tokens_at};

use crate::plain_lexer::Lexer;
use crate::runs::is_white;
use crate::values::Field;
use json::{Invalid, Token};
use std::marker::Model;

/// The state of a reader: what it has read last.
#[derive(Clone, Copy, Drop)]
pub(crate) enum Place {
    AfterComma,
    Fresh,
    AfterValue,
    Failed,
}

impl Place {
    #[inline(always)]
    fn may_close(self) -> bool
        ensures { result ≡ closes_at self }
    {
        matches!(self, Place::Fresh | Place::AfterValue)
    }

    #[inline(always)]
    fn may_begin(self) -> bool
        ensures { result ≡ begins_at self }
    {
        matches!(self, Place::Fresh | Place::AfterComma)
    }
}

/// Contracts see the tokens that are still to come.
#[derive(Drop)]
pub(crate) struct PlainReader<'a> {
    lexer: Lexer<'a>,
    place: Place,
}

impl<'a> Model for PlainReader<'a> {
    ghost use Rattle.std.specs.Prelude.{List};
    ghost use Rattle.json.specs.Token.{Token as SpecToken, tokens_code};

    ghost Value = { List SpecToken };

    ghost coded = { tokens_code };

    ghost use Rattle.ctf_json.specs.PlainReader.{tokens_at, NotBeforeComma};

    ghost view = { λ a. tokens_at a.place a.lexer };

    ghost invariant = { λ a. NotBeforeComma a.place a.lexer };
}

/// Skips the comma that may follow a value.
#[inline(always)]
fn after_value(lexer: &mut Lexer<'_>) -> Place
    ensures same { tokens_at result lexer.new ≡ punctuate after_value (lex between lexer.old) }
    ensures passed { NotBeforeComma result lexer.new }
{
    if lexer.peek() == b',' {
        lexer.skip();
        Place::AfterComma
    } else {
        Place::AfterValue
    }
}

#[inline(always)]
fn is_good(token: &Token<'_>) -> bool
    ensures { result ≡ good (token_of token.now) }
{
    !matches!(token, Token::Bad)
}

#[inline(always)]
fn string<'a>(lexer: &mut Lexer<'a>) -> (Token<'a>, Place)
    requires { head lexer.old ≡ 34 }
    ensures value { Begins lexer.old (token_of result.0) result.1 lexer.new }
    ensures passed { NotBeforeComma result.1 lexer.new }
{
    let Some(text) = lexer.string() else {
        return (Token::Bad, Place::Failed);
    };
    if lexer.peek() == b':' {
        lexer.skip();
        (Token::Key(text), Place::Fresh)
    } else {
        (Token::String(text), after_value(lexer))
    }
}

/// The token that begins with `c`, where a value or a key may begin.
#[inline(always)]
fn begin<'a>(lexer: &mut Lexer<'a>, c: u8) -> (Token<'a>, Place)
    requires first { (head lexer.old ≡ c) × (is_blank (class c) ≡ false) }
    requires opening { (c ≢ 125) × (c ≢ 93) }
    ensures value { Begins lexer.old (token_of result.0) result.1 lexer.new }
    ensures passed { NotBeforeComma result.1 lexer.new }
{
    match c {
        b'"' => string(lexer),
        b'{' => {
            lexer.skip();
            (Token::BeginObject, Place::Fresh)
        }
        b'[' => {
            lexer.skip();
            (Token::BeginArray, Place::Fresh)
        }
        b',' | b':' | b'\\' => (Token::Bad, Place::Failed),
        _ => {
            let token = lexer.word();
            if is_good(&token) {
                (token, after_value(lexer))
            } else {
                (token, Place::Failed)
            }
        }
    }
}

#[inline(always)]
fn close<'a>(lexer: &mut Lexer<'a>, c: u8) -> (Token<'a>, Place)
    requires { (head lexer.old ≡ c) × ((c ≡ 125) ⊎ (c ≡ 93)) }
    ensures value { Closes lexer.old (token_of result.0) result.1 lexer.new }
    ensures passed { NotBeforeComma result.1 lexer.new }
{
    lexer.skip();
    let place = after_value(lexer);
    if c == b'}' {
        (Token::EndObject, place)
    } else {
        (Token::EndArray, place)
    }
}

/// A bad token, and no further one.
#[cold]
fn refuse<'a>(place: Place) -> (Option<Token<'a>>, Place)
    ensures { Yields (refused_at place) result.0 [] × (result.1 ≡ Place.Failed) }
{
    if let Place::Failed = place {
        (None, Place::Failed)
    } else {
        (Some(Token::Bad), Place::Failed)
    }
}

#[inline(always)]
fn read<'a>(lexer: &mut Lexer<'a>, place: Place) -> (Option<Token<'a>>, Place)
    requires { NotBeforeComma place lexer.old }
    ensures value { Yields (tokens_at place lexer.old) result.0 (tokens_at result.1 lexer.new) }
    ensures passed { NotBeforeComma result.1 lexer.new }
{
    let c = lexer.peek();
    if (c == b'}') | (c == b']') {
        if !place.may_close() {
            return refuse(place);
        }
        let (token, next) = close(lexer, c);
        return (Some(token), next);
    }
    if is_white(c) {
        return if place.may_close() {
            (None, place)
        } else {
            refuse(place)
        };
    }
    if !place.may_begin() {
        return refuse(place);
    }
    let (token, next) = begin(lexer, c);
    (Some(token), next)
}

/// The next text or number of few digits, if a comma or a brace directly follows it.
#[inline(always)]
fn field<'a>(lexer: &mut Lexer<'a>) -> Option<Field<'a>>
    ensures { MatchOption result (lexer.new ≡ lexer.old)
        (λ f. BeginsField lexer.old f lexer.new) }
{
    if lexer.peek() == b'"' {
        Some(Field::String(lexer.string_before(b',', b'}')?))
    } else {
        Some(Field::Number(lexer.digits()?))
    }
}

impl<'a> PlainReader<'a> {
    #[inline(always)]
    pub(crate) fn new(text: &'a str) -> PlainReader<'a>
        requires { HasNoEscape text.now }
        ensures { result ≡ tokens text.now }
    {
        PlainReader {
            lexer: Lexer::new(text),
            place: Place::Fresh,
        }
    }

    #[inline(always)]
    pub(crate) fn next(&mut self) -> Option<Token<'a>>
        ensures value { MatchOption result ((self.old ≡ []) × (self.new ≡ []))
            (λ t. self.old ≡ token_of t ∷ self.new) }
    {
        let (token, place) = read(&mut self.lexer, self.place);
        self.place = place;
        token
    }

    /// Takes the bracket that closes an array, if it is next.
    #[inline(always)]
    pub(crate) fn take_end_array(&mut self) -> bool
        ensures { MatchBool result (after_end_array self.old ≡ Some self.new)
            ((after_end_array self.old ≡ None) × (self.new ≡ self.old)) }
    {
        if (self.lexer.peek() != b']') | !self.place.may_close() {
            return false;
        }
        self.lexer.skip();
        self.place = after_value(&mut self.lexer);
        true
    }

    /// Takes the brace that begins an object, if it is next.
    #[inline(always)]
    pub(crate) fn take_object(&mut self) -> bool
        ensures { MatchBool result (self.old ≡ spec.begin_object ∷ self.new)
            (self.new ≡ self.old) }
    {
        if !self.place.may_begin() {
            return false;
        }
        if self.lexer.peek() != b'{' {
            return false;
        }
        self.lexer.skip();
        self.place = Place::Fresh;
        true
    }

    /// Takes the bracket that begins an array, if it is next.
    #[inline(always)]
    pub(crate) fn take_array(&mut self) -> bool
        ensures { MatchBool result (self.old ≡ spec.begin_array ∷ self.new)
            (self.new ≡ self.old) }
    {
        if !self.place.may_begin() {
            return false;
        }
        if self.lexer.peek() != b'[' {
            return false;
        }
        self.lexer.skip();
        self.place = Place::Fresh;
        true
    }

    /// Takes a key, if one is next and its colon directly follows.
    #[inline(always)]
    fn take_key(&mut self) -> Option<&'a str>
        ensures { MatchOption result (self.new ≡ self.old)
            (λ k. self.old ≡ spec.key k.now ∷ self.new) }
    {
        if !self.place.may_begin() {
            return None;
        }
        if self.lexer.peek() != b'"' {
            return None;
        }
        let key = self.lexer.string_before(b':', b':')?;
        self.lexer.skip();
        self.place = Place::Fresh;
        Some(key)
    }

    /// A key, or None at the brace that closes an object.
    #[inline(always)]
    pub(crate) fn next_key(&mut self) -> Result<Option<&'a str>, Invalid>
        ensures value { MatchResult result
            (λ k. read_key self.old ≡ Some (option_map (λ s. s.now) k, self.new))
            (λ _. read_key self.old ≡ None) }
    {
        match self.take_key() {
            Some(key) => Ok(Some(key)),
            None => Ok(self.any_key()?),
        }
    }

    /// The same, wherever the key and its colon are.
    #[inline(always)]
    fn any_key(&mut self) -> Result<Option<&'a str>, Invalid>
        ensures value { MatchResult result
            (λ k. read_key self.old ≡ Some (option_map (λ s. s.now) k, self.new))
            (λ _. read_key self.old ≡ None) }
    {
        let token = self.next().ok_or(Invalid)?;
        match token {
            Token::Key(key) => Ok(Some(key)),
            Token::EndObject => Ok(None),
            _ => Err(Invalid),
        }
    }

    /// A key, with its value if this is read in one step; or None at the brace that closes an
    /// object.
    #[inline(always)]
    pub(crate) fn next_member(&mut self) -> Result<Option<(&'a str, Option<Field<'a>>)>, Invalid>
        ensures value { MatchResult result
            (λ read. MatchOption read (read_key self.old ≡ Some (None, self.new))
            (λ member. IsMember self.old member.0.now member.1 self.new))
            (λ _. read_key self.old ≡ None) }
    {
        if let Some(key) = self.take_key() {
            return Ok(Some((key, self.take_field())));
        }
        match self.any_key()? {
            Some(key) => Ok(Some((key, None))),
            None => Ok(None),
        }
    }

    /// Takes a text or a number of few digits, if one is next and a comma or a brace directly
    /// follows it.
    #[inline(always)]
    pub(crate) fn take_field(&mut self) -> Option<Field<'a>>
        ensures { MatchOption result (self.new ≡ self.old) (λ f. IsField self.old f self.new) }
    {
        if !self.place.may_begin() {
            return None;
        }
        let field = field(&mut self.lexer)?;
        self.place = after_value(&mut self.lexer);
        Some(field)
    }
}
