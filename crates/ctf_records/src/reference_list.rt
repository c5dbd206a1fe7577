//! The types that a record names after its head, and the length of its members.
ghost use Rattle.std.specs.Prelude.{◌≡◌, ◌<◌, length, slice_index};
ghost use Rattle.ctf_model.specs.format.Record.{member_len as len_of_member, size};
ghost use Rattle.ctf_records.specs.ListedTypes.{listed_types};
ghost use Rattle.ctf_records.specs.ListedView.{numbers_listed};
ghost use Rattle.ctf_records.specs.RecordView.{bytes_of};

use crate::front::size_of;
use crate::numbers::ReferenceList;
use crate::record::Record;
use ctf_model::{Kind, TypeNum};

/// The members of a struct or union of this size or a greater one have wide offsets
/// (`CTF_LSTRUCT_THRESH` of sys/ctf.h).
pub const WIDE_MEMBERS: u64 = 8192;

/// The length of each member of a struct or union of this size.
pub fn member_len(size: u64) -> usize
    ensures { result ≡ len_of_member size }
{
    if size < WIDE_MEMBERS { 8 } else { 16 }
}

impl<'a> Record<'a> {
    /// The length of each member of this type, if it has members.
    pub fn member_len(&self) -> usize
        ensures { result ≡ len_of_member (size (bytes_of self.now)) }
    {
        member_len(size_of(self.bytes))
    }

    /// The types that the record names after its head: the element and index types of an array, the
    /// arguments of a function, or the types of members. No name is read.
    #[inline(always)]
    pub fn reference_list(&self) -> ReferenceList<'a>
        ensures { numbers_listed result ≡ listed_types (bytes_of self.now) }
    {
        match self.kind() {
            Kind::KArray => ReferenceList::new(self.rest(), 2, 0, 2),
            Kind::KFunction => ReferenceList::new(self.rest(), 2, 0, self.vlen()),
            Kind::KStruct | Kind::KUnion => {
                ReferenceList::new(self.rest(), self.member_len(), 4, self.vlen())
            }
            _ => ReferenceList::new(&[], 2, 0, 0),
        }
    }

    /// The number of these types.
    pub fn listed_count(&self) -> usize
        ensures { result ≡ length (listed_types (bytes_of self.now)) }
    {
        self.reference_list().count()
    }

    /// One of these types, counted from 0, as stored.
    pub fn listed_type(&self, item: usize) -> TypeNum
        requires { item < length (listed_types (bytes_of self.now)) }
        ensures { result.0 ≡ slice_index (listed_types (bytes_of self.now)) item }
    {
        self.reference_list().get(item)
    }
}
