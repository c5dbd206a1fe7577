//! What requests add to drafts.
ghost use Rattle.std.specs.Prelude.{◌≡◌, [], ◌∷◌, IfOk, codes, map};
ghost use Rattle.ctf_draft.specs.NewView.{new_body_of, new_scalar};
ghost use Rattle.ctf_library.specs.Drafting.{IsStepped};
ghost use Rattle.ctf_protocol.specs.sessions.Opened.{slot_stepped};
ghost use Rattle.ctf_library.specs.SlotView.{slot_of};
ghost use Rattle.ctf_protocol.specs.sessions.Opened.{open_of};
ghost use Rattle.ctf_model.specs.drafts.NewTypes as new;
ghost use Rattle.ctf_model.specs.opened.Steps.{enumerator_added, label_added, member_added, type_added};
ghost use Rattle.ctf_protocol.specs.answers.Answers.{number, says};
ghost use Rattle.ctf_protocol.specs.sessions.Additions.{array_of, asked_body, scalar_of, tag_declared};
ghost use Rattle.ctf_protocol.specs.sessions.Charges.{slot_bytes};
ghost use Rattle.ctf_protocol.specs.sessions.DraftSteps.{slot_step};
ghost use Rattle.ctf_protocol.specs.declared.requests.DraftStep.TheVariants.{Add};
ghost use Rattle.ctf_records.specs.RecordView.{tag_of};

use crate::slots::Slot;
use ctf_answers::Counts;
use ctf_draft::{AggregateKind, NewBody, ReferenceKind, ScalarKind};
use ctf_open::Part;
use ctf_protocol::{
    Addition, Declared, Fault, NewArray, NewKind, NewScalar, Piece, TypeNum, TypeNums, placeless,
};
use ctf_records::Tag;
use ctf_views::{ArrayInfo, Encoding};
use std::alloc::{AllocError, Global};

/// What a forward declares.
fn tag(declared: Declared) -> Tag
    ensures { tag_of result ≡ tag_declared declared }
{
    match declared {
        Declared::Struct => Tag::Struct,
        Declared::Union => Tag::Union,
        Declared::Enum => Tag::Enum,
    }
}

fn scalar<'a>(kind: ScalarKind, scalar: &NewScalar) -> NewBody<'a>
    ensures { new_body_of result ≡ new_scalar kind (scalar_of scalar.now) }
{
    let encoding = Encoding {
        encoding: scalar.encoding,
        offset: scalar.offset,
        bits: scalar.bits,
    };
    NewBody::Scalar(kind, scalar.size, encoding)
}

fn array<'a>(array: &NewArray) -> NewBody<'a>
    ensures { new_body_of result ≡ new.array (array_of array.now) }
{
    NewBody::Array(ArrayInfo {
        contents: array.contents,
        index: array.index,
        count: array.count,
    })
}

/// A new type of a kind, as a draft takes it. A function's arguments are lent.
fn body(kind: &NewKind) -> NewBody<'_>
    ensures { new_body_of result ≡ asked_body kind.now }
{
    match kind {
        NewKind::Unknown => NewBody::Unknown,
        NewKind::Integer(parts) => scalar(ScalarKind::Integer, parts),
        NewKind::Float(parts) => scalar(ScalarKind::Float, parts),
        NewKind::Pointer(t) => NewBody::Reference(ReferenceKind::Pointer, *t),
        NewKind::Array(parts) => array(parts),
        NewKind::Function(returned, args) => NewBody::Function(*returned, args.as_slice()),
        NewKind::Struct(size) => NewBody::Aggregate(AggregateKind::Struct, *size),
        NewKind::Union(size) => NewBody::Aggregate(AggregateKind::Union, *size),
        NewKind::Enum(size) => NewBody::Enum(*size),
        NewKind::Forward(declared) => NewBody::Forward(tag(*declared)),
        NewKind::Typedef(t) => NewBody::Reference(ReferenceKind::Typedef, *t),
        NewKind::Volatile(t) => NewBody::Reference(ReferenceKind::Volatile, *t),
        NewKind::Const(t) => NewBody::Reference(ReferenceKind::Const, *t),
        NewKind::Restrict(t) => NewBody::Reference(ReferenceKind::Restrict, *t),
    }
}

impl Slot {
    fn add_type(
        &mut self,
        alloc: Global,
        name: &Piece,
        root: bool,
        kind: &NewKind,
    ) -> Result<Counts, Fault>
        ensures step { IsStepped (slot_stepped (λ n. says (codes "t") (number n) ∷ [])
            (slot_of self.old) (type_added (record {
              name = name.now;
              root = root;
              body = asked_body kind.now;
            }) (open_of (slot_of self.old)))) result (slot_of self.old) (slot_of self.new) }
        ensures number { self.new.number ≡ self.old.number }
        ensures same { slot_bytes (slot_of self.new) ≡ slot_bytes (slot_of self.old) }
    {
        let t = self
            .dictionary
            .add(alloc, name.as_slice(), root, body(kind))?;
        Ok(Counts::one("t", u64::from(t.0)))
    }

    fn add_member(
        &mut self,
        alloc: Global,
        t: TypeNum,
        name: &Piece,
        tnum: TypeNum,
        offset: Option<u64>,
    ) -> Result<Counts, Fault>
        ensures step { IsStepped (slot_stepped (λ n. says (codes "offset") (number n) ∷ [])
            (slot_of self.old) (member_added t.0 name.now tnum.0 offset
            (open_of (slot_of self.old)))) result (slot_of self.old) (slot_of self.new) }
        ensures number { self.new.number ≡ self.old.number }
        ensures same { slot_bytes (slot_of self.new) ≡ slot_bytes (slot_of self.old) }
    {
        let part = Part::Member(t, name.as_slice(), tnum, offset);
        let offset = self.dictionary.add_part(alloc, part)?;
        Ok(Counts::one("offset", offset))
    }

    fn add_enumerator(
        &mut self,
        alloc: Global,
        t: TypeNum,
        name: &Piece,
        value: i32,
    ) -> Result<Counts, Fault>
        ensures step { IsStepped (slot_stepped (λ n. []) (slot_of self.old)
            (enumerator_added t.0 (record { name = name.now; value = value })
            (open_of (slot_of self.old)))) result (slot_of self.old) (slot_of self.new) }
        ensures number { self.new.number ≡ self.old.number }
        ensures same { slot_bytes (slot_of self.new) ≡ slot_bytes (slot_of self.old) }
    {
        let part = Part::Enumerator(t, name.as_slice(), value);
        self.dictionary.add_part(alloc, part)?;
        Ok(Counts::of_success())
    }

    fn add_label(&mut self, alloc: Global, name: &Piece, last: u32) -> Result<Counts, Fault>
        ensures step { IsStepped (slot_stepped (λ n. []) (slot_of self.old)
            (label_added (record { name = name.now; last = last })
            (open_of (slot_of self.old)))) result (slot_of self.old) (slot_of self.new) }
        ensures number { self.new.number ≡ self.old.number }
        ensures same { slot_bytes (slot_of self.new) ≡ slot_bytes (slot_of self.old) }
    {
        let part = Part::Label(name.as_slice(), last);
        self.dictionary.add_part(alloc, part)?;
        Ok(Counts::of_success())
    }

    /// Adds to its draft; the number of a type or the offset of a member is answered.
    #[tactic(auto, using(crate::proofs::DraftSteps::enumerator_as))]
    pub(crate) fn add(&mut self, alloc: Global, addition: &Addition) -> Result<Counts, Fault>
        ensures step { IsStepped (slot_step (Add addition.now) (slot_of self.old)) result
            (slot_of self.old) (slot_of self.new) }
        ensures number { self.new.number ≡ self.old.number }
        ensures same { slot_bytes (slot_of self.new) ≡ slot_bytes (slot_of self.old) }
    {
        match addition {
            Addition::Type { name, root, kind } => self.add_type(alloc, name, *root, kind),
            Addition::Member {
                t,
                name,
                tnum,
                offset,
            } => self.add_member(alloc, *t, name, *tnum, *offset),
            Addition::Enumerator { t, name, value } => {
                self.add_enumerator(alloc, *t, name, *value)
            }
            Addition::Label { name, last } => self.add_label(alloc, name, *last),
        }
    }
}
