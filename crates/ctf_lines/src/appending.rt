//! Texts after a list that is passed by value, for which there is room.
ghost use Rattle.std.specs.Prelude.{◌≡◌, ◌+◌, ◌<◌, ◌≤◌, ◌++◌, length, vec_len, vec_capacity, decimal};
ghost use Rattle.ctf_lines.specs.Appending.{HasRoom, Appended};
ghost use Rattle.ctf_lines.specs.Rows.{member_row};

use itoa::Buffer;

/// A list with bytes appended.
#[inline(always)]
pub fn append_bytes(out: Vec<u8>, bytes: &[u8]) -> Vec<u8>
    requires { HasRoom out bytes.now }
    ensures { Appended out result bytes.now }
{
    let mut lines = out;
    for byte in bytes {
        lines.push_reserved(*byte);
    }
    lines
}

fn digit(number: u64) -> u8
    requires { number < 10 }
    ensures { result ≡ 48 + number }
{
    b'0' + number as u8
}

#[inline(always)]
fn with_digit(out: Vec<u8>, number: u64) -> Vec<u8>
    requires number { number < 10 }
    requires room { HasRoom out (decimal number) }
    ensures { Appended out result (decimal number) }
{
    append_bytes(out, &[digit(number)])
}

#[inline(always)]
fn with_two_digits(out: Vec<u8>, number: u64) -> Vec<u8>
    requires number { (10 ≤ number) × (number < 100) }
    requires room { HasRoom out (decimal number) }
    ensures { Appended out result (decimal number) }
{
    append_bytes(out, &[digit(number / 10), digit(number % 10)])
}

#[inline(always)]
fn with_three_digits(out: Vec<u8>, number: u64) -> Vec<u8>
    requires number { (100 ≤ number) × (number < 1000) }
    requires room { HasRoom out (decimal number) }
    ensures { Appended out result (decimal number) }
{
    let front = number / 10;
    append_bytes(
        out,
        &[digit(front / 10), digit(front % 10), digit(number % 10)],
    )
}

#[inline(always)]
fn with_four_digits(out: Vec<u8>, number: u64) -> Vec<u8>
    requires number { (1000 ≤ number) × (number < 10000) }
    requires room { HasRoom out (decimal number) }
    ensures { Appended out result (decimal number) }
{
    append_bytes(with_three_digits(out, number / 10), &[digit(number % 10)])
}

#[inline(always)]
fn with_five_digits(out: Vec<u8>, number: u64) -> Vec<u8>
    requires number { (10000 ≤ number) × (number < 100000) }
    requires room { HasRoom out (decimal number) }
    ensures { Appended out result (decimal number) }
{
    append_bytes(with_four_digits(out, number / 10), &[digit(number % 10)])
}

/// Not inlined into its callers, since few numbers are that long.
#[inline(never)]
fn with_longest_number(out: Vec<u8>, number: u64) -> Vec<u8>
    requires { HasRoom out (decimal number) }
    ensures { Appended out result (decimal number) }
{
    append_bytes(out, Buffer::new().format(number).as_bytes())
}

/// The same. The memory for the result of a call is cleared where the call stands in the code: so
/// it is not cleared for a shorter number.
#[inline(always)]
fn with_any_number(out: Vec<u8>, number: u64) -> Vec<u8>
    requires { HasRoom out (decimal number) }
    ensures { Appended out result (decimal number) }
{
    with_longest_number(out, number)
}

#[inline(always)]
fn with_more_digits(out: Vec<u8>, number: u64) -> Vec<u8>
    requires number { 1000 ≤ number }
    requires room { HasRoom out (decimal number) }
    ensures { Appended out result (decimal number) }
{
    if number < 10_000 {
        with_four_digits(out, number)
    } else if number < 100_000 {
        with_five_digits(out, number)
    } else {
        with_any_number(out, number)
    }
}

/// Not inlined into its callers, since most numbers are short.
#[inline(never)]
fn with_long_number(out: Vec<u8>, number: u64) -> Vec<u8>
    requires number { 1000 ≤ number }
    requires room { HasRoom out (decimal number) }
    ensures { Appended out result (decimal number) }
{
    with_more_digits(out, number)
}

/// The same, cleared only for long numbers.
#[inline(always)]
fn with_longer_number(out: Vec<u8>, number: u64) -> Vec<u8>
    requires number { 1000 ≤ number }
    requires room { HasRoom out (decimal number) }
    ensures { Appended out result (decimal number) }
{
    with_long_number(out, number)
}

/// A list with a number appended.
#[inline(always)]
pub fn with_number(out: Vec<u8>, number: u64) -> Vec<u8>
    requires { HasRoom out (decimal number) }
    ensures { Appended out result (decimal number) }
{
    if number < 10 {
        with_digit(out, number)
    } else if number < 100 {
        with_two_digits(out, number)
    } else if number < 1000 {
        with_three_digits(out, number)
    } else {
        with_longer_number(out, number)
    }
}

/// The same, without a call for a number of up to five digits.
#[inline(always)]
fn with_number_here(out: Vec<u8>, number: u64) -> Vec<u8>
    requires { HasRoom out (decimal number) }
    ensures { Appended out result (decimal number) }
{
    if number < 10 {
        with_digit(out, number)
    } else if number < 100 {
        with_two_digits(out, number)
    } else if number < 1000 {
        with_three_digits(out, number)
    } else {
        with_more_digits(out, number)
    }
}

/// A list with a text between two others appended.
#[inline(always)]
pub fn between(out: Vec<u8>, front: &[u8], text: &[u8], back: &[u8]) -> Vec<u8>
    requires { HasRoom out (front.now ++ (text.now ++ back.now)) }
    ensures { Appended out result (front.now ++ (text.now ++ back.now)) }
{
    append_bytes(append_bytes(append_bytes(out, front), text), back)
}

/// A list with a number between two texts appended.
#[inline(always)]
pub fn append_number(out: Vec<u8>, front: &[u8], number: u64, back: &[u8]) -> Vec<u8>
    requires { HasRoom out (front.now ++ (decimal number ++ back.now)) }
    ensures { Appended out result (front.now ++ (decimal number ++ back.now)) }
{
    append_bytes(with_number(append_bytes(out, front), number), back)
}

/// The same, without a call for a number of up to five digits.
#[inline(always)]
pub fn append_number_here(out: Vec<u8>, front: &[u8], number: u64, back: &[u8]) -> Vec<u8>
    requires { HasRoom out (front.now ++ (decimal number ++ back.now)) }
    ensures { Appended out result (front.now ++ (decimal number ++ back.now)) }
{
    append_bytes(with_number_here(append_bytes(out, front), number), back)
}

/// A list with a member appended, whose name needs no escapes.
#[inline(always)]
pub fn with_member(out: Vec<u8>, name: &[u8], offset: u64, number: u64) -> Vec<u8>
    requires { HasRoom out (member_row name.now offset number) }
    ensures { Appended out result (member_row name.now offset number) }
{
    let out = between(out, b"{\"name\":\"", name, b"\",\"offset\":");
    let out = append_number_here(out, b"", offset, b",\"type\":");
    append_number_here(out, b"", number, b"}")
}
