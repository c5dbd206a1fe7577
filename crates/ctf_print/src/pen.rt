//! What all values share while one is shown.
ghost use Rattle.std.specs.Prelude.{◌≡◌, ◌<◌, ℕ, length, slice_get, IfErr, IfOk, OnOk, Ok, Some};
ghost use Rattle.ctf_model.specs.figures.Figures.{size as size_of};
ghost use Rattle.ctf_model.specs.format.Term.{Member};
ghost use Rattle.ctf_model.specs.values.Pieces.{ends, no_pieces, piece, separate};
ghost use Rattle.ctf_model.specs.values.Values.{each_element, enum_shown, float_shown, integer_shown, label, member_shown, raw_shown};
ghost use Rattle.ctf_views.specs.PartsView.{encoding_info};
ghost use Rattle.ctf_print.specs.Finding.{IsBegun, IsValueForm};
ghost use Rattle.ctf_print.specs.ImageView.{shows, types_of};
ghost use Rattle.ctf_print.specs.Placing.{shown_how};
ghost use Rattle.ctf_print.specs.ShowRules as rule;
ghost use Rattle.ctf_print.specs.ShowRules.{stated_size};
ghost use Rattle.ctf_print.specs.Written.{Refused, comma_before, written};

use crate::enums::show_enum;
use crate::image::Image;
use crate::integers::{show_float, show_integer};
use crate::numbers::show_raw;
use crate::show_cache::ShowCache;
use crate::text::Text;
use crate::value_form::{ValueForm, find_how};
use ctf_model::{Fault, TypeNum};
use ctf_views::{Encoding, Enumerators, Members};

/// The text has ended: the pen has the fault.
#[derive(Clone, Copy)]
pub struct Ended;

/// The text, the cache of types, and why the text ended. Nested values share one pen, so each takes
/// stack only for its own state, and none for a fault.
#[derive(Drop)]
pub struct Pen<'a> {
    pub known: ShowCache<'a>,
    pub out: Text,
    pub fault: Fault,
}

impl<'a> Pen<'a> {
    /// Ends the text with a fault.
    #[inline(always)]
    pub fn end(&mut self, fault: Fault)
        ensures refused { Refused self.old.out (ends fault) self.new.fault }
        ensures kept { self.new.known ≡ self.old.known }
        ensures text { self.new.out ≡ self.old.out }
    {
        let _ = self.out.end(fault);
        self.fault = fault;
    }

    /// Appends a piece for which memory may have to be allocated.
    #[inline(never)]
    fn put_slowly(&mut self, bytes: &[u8]) -> Result<(), Ended>
        ensures ok { OnOk result (written self.old.out (piece bytes.now) ≡ Ok self.new.out) }
        ensures err { IfErr result (λ _. Refused self.old.out (piece bytes.now) self.new.fault) }
        ensures kept { self.new.known ≡ self.old.known }
    {
        match self.out.put(bytes) {
            Ok(()) => Ok(()),
            Err(fault) => {
                self.fault = fault;
                Err(Ended)
            }
        }
    }

    /// Appends a piece of a few bytes, for which there mostly is memory.
    #[inline(always)]
    pub fn put_short(&mut self, bytes: &[u8]) -> Result<(), Ended>
        ensures ok { OnOk result (written self.old.out (piece bytes.now) ≡ Ok self.new.out) }
        ensures err { IfErr result (λ _. Refused self.old.out (piece bytes.now) self.new.fault) }
        ensures kept { self.new.known ≡ self.old.known }
    {
        if self.out.put_at_once(bytes) {
            return Ok(());
        }
        self.put_slowly(bytes)
    }

    /// Appends nothing: the text so far is not too long.
    #[inline(always)]
    pub fn put_nothing(&mut self) -> Result<(), Ended>
        ensures ok { OnOk result (written self.old.out (no_pieces) ≡ Ok self.new.out) }
        ensures err { IfErr result (λ _. Refused self.old.out (no_pieces) self.new.fault) }
        ensures kept { self.new.known ≡ self.old.known }
    {
        match self.out.put_nothing() {
            Ok(()) => Ok(()),
            Err(fault) => {
                self.fault = fault;
                Err(Ended)
            }
        }
    }

    /// Appends the comma before the item with a number, from 0, if it has one.
    #[inline(always)]
    pub fn put_comma(&mut self, item: usize) -> Result<(), Ended>
        ensures ok { OnOk result (written self.old.out (comma_before item) ≡ Ok self.new.out) }
        ensures err { IfErr result (λ _. Refused self.old.out (comma_before item) self.new.fault) }
        ensures kept { self.new.known ≡ self.old.known }
    {
        if item == 0 {
            return self.put_nothing();
        }
        self.put_short(b", ")
    }

    /// Appends the name of a member and what follows the name, if the member has one.
    #[inline(always)]
    fn write_label(&mut self, name: &[u8]) -> Result<(), Ended>
        ensures ok { OnOk result (written self.old.out (label name.now) ≡ Ok self.new.out) }
        ensures err { IfErr result (λ _. Refused self.old.out (label name.now) self.new.fault) }
        ensures kept { self.new.known ≡ self.old.known }
    {
        match self.out.put_name(name) {
            Ok(()) => Ok(()),
            Err(fault) => {
                self.fault = fault;
                Err(Ended)
            }
        }
    }

    /// Appends so many bits as raw digits.
    #[inline(never)]
    pub fn write_raw(&mut self, memory: &[u8], at: u128, width: u128) -> Result<(), Ended>
        ensures ok { OnOk result (written self.old.out (raw_shown memory.now at width)
            ≡ Ok self.new.out) }
        ensures err { IfErr result (λ _. Refused self.old.out (raw_shown memory.now at width)
            self.new.fault) }
        ensures kept { self.new.known ≡ self.old.known }
    {
        match show_raw(memory, at, width, &mut self.out) {
            Ok(()) => Ok(()),
            Err(fault) => {
                self.fault = fault;
                Err(Ended)
            }
        }
    }

    /// Appends the integer whose storage begins at a bit.
    #[inline(never)]
    pub fn write_integer(
        &mut self,
        memory: &[u8],
        at: u128,
        encoding: Encoding,
    ) -> Result<(), Ended>
        ensures ok { OnOk result (written self.old.out
            (integer_shown memory.now at (encoding_info encoding)) ≡ Ok self.new.out) }
        ensures err { IfErr result (λ _. Refused self.old.out
            (integer_shown memory.now at (encoding_info encoding)) self.new.fault) }
        ensures kept { self.new.known ≡ self.old.known }
    {
        match show_integer(memory, at, encoding, &mut self.out) {
            Ok(()) => Ok(()),
            Err(fault) => {
                self.fault = fault;
                Err(Ended)
            }
        }
    }

    /// Appends the float whose storage begins at a bit.
    #[inline(never)]
    pub fn write_float(&mut self, memory: &[u8], at: u128, encoding: Encoding) -> Result<(), Ended>
        ensures ok { OnOk result (written self.old.out
            (float_shown memory.now at (encoding_info encoding)) ≡ Ok self.new.out) }
        ensures err { IfErr result (λ _. Refused self.old.out
            (float_shown memory.now at (encoding_info encoding)) self.new.fault) }
        ensures kept { self.new.known ≡ self.old.known }
    {
        match show_float(memory, at, encoding, &mut self.out) {
            Ok(()) => Ok(()),
            Err(fault) => {
                self.fault = fault;
                Err(Ended)
            }
        }
    }

    /// Appends an enum, by its number and the size in bytes in its record.
    #[inline(never)]
    pub fn write_enum(
        &mut self,
        memory: &[u8],
        at: u128,
        number: TypeNum,
        said: Option<u64>,
        enumerators: &Enumerators<'_>,
    ) -> Result<(), Ended>
        requires { shown_how self.old.known number.0 ≡ rule.enum said enumerators.now }
        ensures ok { OnOk result (written self.old.out
            (enum_shown memory.now at (stated_size said) enumerators.now) ≡ Ok self.new.out) }
        ensures err { IfErr result (λ _. Refused self.old.out
            (enum_shown memory.now at (stated_size said) enumerators.now) self.new.fault) }
        ensures kept { self.new.known ≡ self.old.known }
    {
        let put = show_enum(
            memory,
            at,
            number,
            said,
            enumerators,
            &mut self.known,
            &mut self.out,
        );
        match put {
            Ok(()) => Ok(()),
            Err(fault) => {
                self.fault = fault;
                Err(Ended)
            }
        }
    }

    /// Finds how the values of the type with a number are shown, and writes that into `found`.
    #[inline(never)]
    pub fn look_up<'b>(
        &mut self,
        image: &Image<'b>,
        number: TypeNum,
        nesting: u32,
        found: &mut ValueForm<'b>,
    ) -> Result<(), Ended>
        requires known { self.old.known ≡ types_of image.now }
        ensures found { IfOk result (λ _. IsValueForm image.now nesting number.0 found.new) }
        ensures refused { IfErr result (λ _. (p : ℕ)
            → Refused self.old.out (shows image.now nesting number.0 p) self.new.fault) }
        ensures kept { self.new.known ≡ self.old.known }
        ensures text { self.new.out ≡ self.old.out }
    {
        match find_how(image, number, nesting, &mut self.known, found) {
            Ok(()) => Ok(()),
            Err(fault) => {
                self.end(fault);
                Err(Ended)
            }
        }
    }

    /// Finds how the elements of an array are shown, and their size in bytes.
    #[inline(never)]
    pub fn begin_elements<'b>(
        &mut self,
        image: &Image<'b>,
        contents: TypeNum,
        nesting: u32,
        found: &mut ValueForm<'b>,
    ) -> Result<u64, Ended>
        requires known { self.old.known ≡ types_of image.now }
        ensures found { IfOk result (λ size. (size_of (types_of image.now) contents.0 ≡ Ok size)
            × IsValueForm image.now nesting contents.0 found.new) }
        ensures refused { IfErr result (λ _. (p count : ℕ) → 0 < count
            → Refused self.old.out (separate (each_element (shows image.now nesting) p contents.0
            count (size_of (types_of image.now) contents.0))) self.new.fault) }
        ensures kept { self.new.known ≡ self.old.known }
        ensures text { self.new.out ≡ self.old.out }
    {
        match image.size(contents) {
            Ok(size) => {
                self.look_up(image, contents, nesting, found)?;
                Ok(size)
            }
            Err(fault) => {
                self.end(fault);
                Err(Ended)
            }
        }
    }

    /// Appends what precedes the value of a member, finds how the value is shown, and returns its
    /// offset.
    #[inline(never)]
    pub fn begin_member<'b>(
        &mut self,
        image: &Image<'b>,
        members: &Members<'_>,
        i: usize,
        nesting: u32,
        found: &mut ValueForm<'b>,
    ) -> Result<u64, Ended>
        requires known { self.old.known ≡ types_of image.now }
        requires inside { i < length members.now }
        ensures begun { (m : Member) → slice_get members.now i ≡ Some m → IfOk result
            (IsBegun image.now nesting m self.old.out self.new.out found.new) }
        ensures refused { (m : Member) → slice_get members.now i ≡ Some m → IfErr result
            (λ _. (p : ℕ) → Refused self.old.out (member_shown (shows image.now nesting) p m)
            self.new.fault) }
        ensures kept { self.new.known ≡ self.old.known }
    {
        let member = members.get(i).unwrap();
        self.write_label(member.name)?;
        self.look_up(image, member.tnum, nesting, found)?;
        Ok(member.offset)
    }
}
