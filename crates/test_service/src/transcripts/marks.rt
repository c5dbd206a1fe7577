//! Marks in the lines of a transcript: `«3 ab»` stands for `ababab`,
//! and `«8n+1»` for eight times the
//! number of the pass, and one.

use std::alloc::{AllocError, Global};

/// The value of a mark with an `n`: `n`, `n+1` or `8n`.
fn figure(factor: &str, plus: &str, number: u32) -> u32 {
    let factor = factor.parse::<u32>().unwrap_or(1);
    let plus = plus.parse::<u32>().unwrap_or(0);
    number.wrapping_mul(factor).wrapping_add(plus)
}

/// Appends a text a number of times.
fn repeat(out: &mut Vec<u8>, text: &str, times: usize) -> Result<(), AllocError> {
    for _ in 0..times {
        out.extend_from_slice(text.as_bytes())?;
    }
    Ok(())
}

/// Appends the value of a mark.
fn put_mark(alloc: Global, out: &mut Vec<u8>, mark: &str, number: u32) -> Result<(), AllocError> {
    if let Some((times, text)) = mark.split_once(' ') {
        return repeat(out, text, times.parse::<usize>().unwrap_or(0));
    }
    let (factor, plus) = mark.split_once('n').unwrap_or((mark, ""));
    let figure = figure(factor, plus, number);
    let digits = format!(in alloc; "{figure}")?;
    out.extend_from_slice(digits.as_bytes())
}

/// Appends a line, with the values of its marks in the pass with a number.
pub fn put_marked(
    alloc: Global,
    out: &mut Vec<u8>,
    text: &str,
    number: u32,
    end: &str,
) -> Result<(), AllocError> {
    let mut pieces = text.split("«");
    out.extend_from_slice(pieces.next().unwrap_or("").as_bytes())?;
    for piece in pieces {
        let (mark, plain) = piece.split_once('»').unwrap_or((piece, ""));
        put_mark(alloc, out, mark, number)?;
        out.extend_from_slice(plain.as_bytes())?;
    }
    out.extend_from_slice(end.as_bytes())
}
