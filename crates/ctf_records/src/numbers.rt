//! Lists of type numbers, which are read in place.
ghost use Rattle.std.specs.Prelude.{◌≡◌, ◌*◌, ◌+◌, ◌<◌, ◌≤◌, length, slice_index};
ghost use Rattle.ctf_records.specs.ListedTypes.{numbers_in};

use ctf_model::TypeNum;
use ctf_sections::bytes::u16_at;

/// Type numbers in items of the same length, one at the same offset of each item.
#[derive(Clone, Copy)]
pub struct ReferenceList<'a> {
    bytes: &'a [u8],
    len: usize,
    at: usize,
    count: usize,
    ghost inside: { at + 2 ≤ len },
    ghost room: { len * count ≤ length bytes.now },
}

impl<'a> ReferenceList<'a> {
    ghost use Rattle.ctf_records.specs.ListedView.{numbers_listed};

    /// The numbers that are `at` bytes after the beginning of each of `count` items.
    #[inline(always)]
    pub fn new(bytes: &'a [u8], len: usize, at: usize, count: usize) -> ReferenceList<'a>
        requires inside { at + 2 ≤ len }
        requires room { len * count ≤ length bytes.now }
        ensures { numbers_listed result ≡ numbers_in len at count bytes.now }
    {
        ReferenceList {
            bytes,
            len,
            at,
            count,
        }
    }

    /// How many numbers there are.
    #[inline(always)]
    pub fn count(&self) -> usize
        ensures { result ≡ length (numbers_listed self.now) }
    {
        self.count
    }

    /// One of the numbers, counted from 0.
    #[inline(always)]
    pub fn get(&self, item: usize) -> TypeNum
        requires { item < length (numbers_listed self.now) }
        ensures { result.0 ≡ slice_index (numbers_listed self.now) item }
    {
        TypeNum(u16_at(self.bytes, self.len * item + self.at))
    }
}
