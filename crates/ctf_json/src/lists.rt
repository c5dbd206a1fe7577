//! Reads lists directly into the wanted form, so that nothing is built for each item.
ghost use Rattle.std.specs.Prelude.{◌≡◌, ◌<◌, IfOk, None, OnOk, length, option_map, true};
ghost use Rattle.std.specs.Prelude as std;
ghost use Rattle.json.specs.Json.{items as read_items, value as read_value};
ghost use Rattle.json.specs.Reads.{token_of};
ghost use Rattle.serde_json.specs.Find.{as_str};
ghost use Rattle.ctf_json.specs.Passed.{begun, passed_items};
ghost use Rattle.ctf_json.specs.Kept.{IsListed};
ghost use Rattle.ctf_json.specs.Values.{fits, read_data, small};
ghost use Rattle.ctf_json.specs.TreeData.{tree_data};
ghost use Rattle.ctf_json.specs.declared.reading.NotRead.TheVariants as why;
ghost use Rattle.ctf_json.specs.declared.wanted.Wanted.TheVariants as wants;

use crate::numbers::natural;
use crate::passing::{pass_from, pass_items};
use crate::readers::Reader;
use crate::reading::NotRead;
use crate::values::{Field, Read};
use crate::wanted::Wanted;
use ctf_joined::Joined;
use ctf_model::TypeNum;
use json::{Invalid, Token};
use std::alloc::Global;

/// What is stored of the items of an array that has begun.
pub(crate) fn list_at<'a>(
    alloc: Global,
    reader: &mut Reader<'a>,
    depth: usize,
    wanted: Wanted,
) -> Result<Read<'a>, NotRead>
    ensures ok { IfOk result (λ v. IsListed wanted
        (read_items (read_value depth) (length reader.old) reader.old) (read_data v) reader.new) }
    ensures fits { IfOk result (λ v. fits wanted v ≡ true) }
    ensures shorter { OnOk result (length reader.new < length reader.old) }
    ensures refused { result ≡ std.Err why.NotJson → passed_items depth reader.old ≡ None }
{
    match wanted {
        Wanted::Texts => texts_at(alloc, reader, depth),
        Wanted::Numbers => numbers_at(alloc, reader, depth),
        Wanted::Nothing => {
            pass_items(reader, depth)?;
            Ok(Read::Field(Field::Null))
        }
    }
}

/// The items of an array if all are texts, else nothing.
fn texts_at<'a>(alloc: Global, reader: &mut Reader<'a>, depth: usize) -> Result<Read<'a>, NotRead>
    ensures ok { IfOk result (λ v. IsListed wants.Texts
        (read_items (read_value depth) (length reader.old) reader.old) (read_data v) reader.new) }
    ensures fits { IfOk result (λ v. fits wants.Texts v ≡ true) }
    ensures shorter { OnOk result (length reader.new < length reader.old) }
    ensures refused { result ≡ std.Err why.NotJson → passed_items depth reader.old ≡ None }
{
    let mut texts = Joined::new(alloc);
    while !reader.take_end_array() {
        let token = reader.next_item().ok_or(Invalid)?;
        let Some(text) = text(token) else {
            pass_from(token, reader, depth)?;
            pass_items(reader, depth)?;
            return Ok(Read::Field(Field::Null));
        };
        if texts.push(text.as_bytes()).is_err() {
            return Err(NotRead::Memory);
        }
    }
    Ok(Read::Texts(texts))
}

/// The items of an array if all are 16-bit numbers, else nothing.
fn numbers_at<'a>(alloc: Global, reader: &mut Reader<'a>, depth: usize) -> Result<Read<'a>, NotRead>
    ensures ok { IfOk result (λ v. IsListed wants.Numbers
        (read_items (read_value depth) (length reader.old) reader.old) (read_data v) reader.new) }
    ensures fits { IfOk result (λ v. fits wants.Numbers v ≡ true) }
    ensures shorter { OnOk result (length reader.new < length reader.old) }
    ensures refused { result ≡ std.Err why.NotJson → passed_items depth reader.old ≡ None }
{
    let mut numbers = Vec::new(alloc);
    while !reader.take_end_array() {
        let token = reader.next_item().ok_or(Invalid)?;
        let Some(number) = small_number(token) else {
            pass_from(token, reader, depth)?;
            pass_items(reader, depth)?;
            return Ok(Read::Field(Field::Null));
        };
        if numbers.push(number).is_err() {
            return Err(NotRead::Memory);
        }
    }
    Ok(Read::Numbers(numbers))
}

/// The 16-bit number of a type, if the value that begins with a token is one.
#[inline(always)]
fn small_number(token: Token<'_>) -> Option<TypeNum>
    ensures { result ≡ small (tree_data (begun (token_of token.entry))) }
{
    let Token::Number(text) = token else {
        return None;
    };
    let number = natural(text)?;
    Some(TypeNum(u16::try_from(number).ok()?))
}

/// The text, if the value that begins with a token is one.
#[inline(always)]
fn text<'a>(token: Token<'a>) -> Option<&'a str>
    ensures { option_map (λ text. text.now) result
        ≡ as_str (tree_data (begun (token_of token.entry))) }
{
    match token {
        Token::String(text) => Some(text),
        _ => None,
    }
}
