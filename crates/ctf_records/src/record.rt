//! A whole type record, and what its head says.
ghost use Rattle.std.specs.Prelude.{◌≡◌, ◌≤◌, ◌+◌, ◌^◌, length, IsTrue, is_some, Some};
ghost use Rattle.std.specs.Option.{option_map};
ghost use Rattle.ctf_model.specs.format.Record.{kind as kind_in, head_len, is_root, is_long as is_long_in, behind_head};
ghost use Rattle.ctf_model.specs.format.Bytes.{u32_at as number32_at};
ghost use Rattle.ctf_model.specs.format.Section.{front_len};

use crate::front::{head_len_of, kind_of, size_of, vlen_of};
use crate::tag::Tag;
use ctf_model::{Kind, TypeNum};
use ctf_sections::bytes::{u16_at, u32_at};

/// A whole type record of a known kind, borrowed from its section.
#[derive(Clone, Copy)]
pub struct Record<'a> {
    pub(crate) index: u64,
    pub(crate) at: usize,
    pub(crate) bytes: &'a [u8],
    pub ghost is_whole: { front_len bytes.now ≡ Some (length bytes.now) },
    pub ghost has_head: { 8 ≤ length bytes.now },
    pub ghost head_inside: { head_len bytes.now ≤ length bytes.now },
    pub ghost is_known: { IsTrue (is_some (kind_in bytes.now)) },
    pub ghost is_near: { at + length bytes.now ≤ 2 ^ 63 },
}

impl<'a> Record<'a> {
    ghost use Rattle.ctf_records.specs.RecordView.{index_of, at_of, bytes_of, tag_of};
    ghost use Rattle.ctf_records.specs.ByKind.{size_in, reference_in, declared_in, list_length, len_behind};

    /// The number of the record in its section, from 1.
    pub fn index(&self) -> u64
        ensures { result ≡ index_of self.now }
    {
        self.index
    }

    /// Where the record begins in its section.
    pub fn place(&self) -> usize
        ensures { result ≡ at_of self.now }
    {
        self.at
    }

    pub fn bytes(&self) -> &'a [u8]
        ensures { result.now ≡ bytes_of self.now }
    {
        self.bytes
    }

    pub fn kind(&self) -> Kind
        ensures { kind_in (bytes_of self.now) ≡ Some result }
    {
        kind_of(self.bytes).unwrap()
    }

    /// Whether the type is visible to look-ups by name.
    pub fn root(&self) -> bool
        ensures { result ≡ is_root (bytes_of self.now) }
    {
        u16_at(self.bytes, 4) / 1024 % 2 == 1
    }

    /// The reference to the name of the type.
    pub fn name_ref(&self) -> u32
        ensures { result ≡ number32_at (bytes_of self.now) 0 }
    {
        u32_at(self.bytes, 0)
    }

    /// Whether the head has 16 bytes.
    pub fn is_long(&self) -> bool
        ensures { result ≡ is_long_in (bytes_of self.now) }
    {
        u16_at(self.bytes, 6) == 0xffff
    }

    /// The size in bytes of a value, for the kinds that have one.
    pub fn size(&self) -> Option<u64>
        ensures { result ≡ size_in (bytes_of self.now) }
    {
        match self.kind() {
            Kind::KInteger
            | Kind::KFloat
            | Kind::KArray
            | Kind::KStruct
            | Kind::KUnion
            | Kind::KEnum => Some(size_of(self.bytes)),
            _ => None,
        }
    }

    /// The type that the head names: the type that is pointed to, returned, renamed or qualified.
    pub fn reference(&self) -> Option<TypeNum>
        ensures { option_map (λ n. n.0) result ≡ reference_in (bytes_of self.now) }
    {
        match self.kind() {
            Kind::KPointer
            | Kind::KFunction
            | Kind::KTypedef
            | Kind::KVolatile
            | Kind::KConst
            | Kind::KRestrict => Some(TypeNum(u16_at(self.bytes, 6))),
            _ => None,
        }
    }

    /// What a forward declares.
    pub fn tag(&self) -> Option<Tag>
        ensures { option_map tag_of result ≡ declared_in (bytes_of self.now) }
    {
        if self.kind() != Kind::KForward {
            return None;
        }
        match u16_at(self.bytes, 6) {
            7 => Some(Tag::Union),
            8 => Some(Tag::Enum),
            _ => Some(Tag::Struct),
        }
    }

    /// How many arguments, members or enumerators the list after the head has.
    pub fn vlen(&self) -> usize
        ensures number { result ≡ list_length (bytes_of self.now) }
        ensures short { result ≤ 1023 }
    {
        match self.kind() {
            Kind::KFunction | Kind::KStruct | Kind::KUnion | Kind::KEnum => vlen_of(self.bytes),
            _ => 0,
        }
    }

    /// The bytes after the head.
    #[tactic(auto, using(crate::proofs::Whole::behind_is))]
    pub fn rest(&self) -> &'a [u8]
        ensures bytes { result.now ≡ behind_head (bytes_of self.now) }
        ensures length { length result.now ≡ len_behind (bytes_of self.now) }
    {
        let (_, rest) = self.bytes.split_at(head_len_of(self.bytes));
        rest
    }
}
