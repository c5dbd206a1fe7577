//! The arguments of a function type.
ghost use Rattle.std.specs.Prelude.{◌≡◌, ◌*◌, ◌≤◌, length, Some};
ghost use Rattle.ctf_model.specs.format.Shown.{is_variadic as ends_open};
ghost use Rattle.ctf_model.specs.format.Spelling.{items, argument_of};

use crate::row::Row;
use crate::rows::RowIter;
use ctf_model::TypeNum;
use ctf_sections::bytes::u16_at;

/// An argument is only the number of its type.
#[derive(Clone, Copy)]
pub struct ArgumentRow;

impl Row for ArgumentRow {
    type Item = TypeNum;

    type Shown = u16;

    ghost row_len = { λ row. 2 };

    ghost item_of = { λ row. argument_of };

    ghost seen = { λ t. t.0 };

    fn len(&self) -> usize {
        2
    }

    fn first(&self, bytes: &[u8]) -> TypeNum {
        TypeNum(u16_at(bytes, 0))
    }
}

/// The remaining types of a function's arguments, as stored, with a last 0.
pub type Args<'a> = RowIter<'a, ArgumentRow>;

/// The first `count` types in some bytes, two bytes each.
pub fn arguments(bytes: &[u8], count: usize) -> Args<'_>
    requires { 2 * count ≤ length bytes.now }
    ensures { items argument_of 2 count bytes.now ≡ Some result }
{
    RowIter::new(bytes, count, ArgumentRow)
}

/// Whether more arguments may follow the named ones: then the last type is 0, which is no argument
/// itself (ctf(5), "Function Types").
pub fn is_variadic(args: &Args<'_>) -> bool
    ensures { result ≡ ends_open args.now }
{
    let len = args.len();
    if len == 0 {
        return false;
    }
    match args.get(len - 1) {
        Some(last) => last.0 == 0,
        None => false,
    }
}
