//! What follows the heads of arrays, integers and floats.
ghost use Rattle.std.specs.Prelude.{◌≡◌, ◌≤◌, length};
ghost use Rattle.ctf_views.specs.PartsView.{array_info, array_in, encoding_info, encoding_in};

use ctf_model::TypeNum;
use ctf_sections::bytes::{u16_at, u32_at};

/// An array: the types of its elements and of its index, and the number of elements.
#[derive(Clone, Copy, Debug, PartialEq, Eq)]
pub struct ArrayInfo {
    pub contents: TypeNum,
    pub index: TypeNum,
    pub count: u32,
}

impl ArrayInfo {
    pub(crate) fn read(rest: &[u8]) -> ArrayInfo
        requires { 8 ≤ length rest.now }
        ensures { array_info result ≡ array_in rest.now }
    {
        ArrayInfo {
            contents: TypeNum(u16_at(rest, 0)),
            index: TypeNum(u16_at(rest, 2)),
            count: u32_at(rest, 4),
        }
    }
}

/// An integer or a float: its encoding, and where its value lies in its storage, in bits.
#[derive(Clone, Copy, Debug, PartialEq, Eq)]
pub struct Encoding {
    pub encoding: u8,
    pub offset: u8,
    pub bits: u16,
}

impl Encoding {
    pub(crate) fn read(rest: &[u8]) -> Encoding
        requires { 4 ≤ length rest.now }
        ensures { encoding_info result ≡ encoding_in rest.now }
    {
        let word = u32_at(rest, 0);
        Encoding {
            encoding: (word >> 24) as u8,
            offset: (word >> 16 & 0xff) as u8,
            bits: (word & 0xffff) as u16,
        }
    }
}
