//! The 36 bytes at the front of a dictionary, and the ranges of its sections.
ghost use Rattle.std.specs.Prelude.{◌≡◌, ◌+◌, ◌≤◌, length, IfOk, IfErr, OnOk, Some, None};
ghost use Rattle.ctf_model.specs.format.Header.{Fields, fields, range_of};
ghost use Rattle.ctf_model.specs.rules.Faults.{header_fault, is_out_of_order as out_of_order, is_misaligned as misaligned};

use crate::bytes::{u16_at, u32_at};
use ctf_model::{Fault, Section, placeless};
use std::marker::Model;

/// The fields as stored, not checked yet.
#[derive(Clone, Copy, Debug, PartialEq, Eq)]
struct Numbers {
    parlabel: u32,
    parname: u32,
    lbloff: u32,
    objtoff: u32,
    funcoff: u32,
    typeoff: u32,
    stroff: u32,
    strlen: u32,
}

impl Numbers {
    ghost use Rattle.ctf_sections.specs.HeaderView.{fields_of};

    fn read(ctf: &[u8]) -> Numbers
        requires { 36 ≤ length ctf.now }
        ensures { fields_of result ≡ fields ctf.now }
    {
        Numbers {
            parlabel: u32_at(ctf, 4),
            parname: u32_at(ctf, 8),
            lbloff: u32_at(ctf, 12),
            objtoff: u32_at(ctf, 16),
            funcoff: u32_at(ctf, 20),
            typeoff: u32_at(ctf, 24),
            stroff: u32_at(ctf, 28),
            strlen: u32_at(ctf, 32),
        }
    }

    fn is_out_of_order(&self) -> bool
        ensures { result ≡ out_of_order (fields_of self.now) }
    {
        self.objtoff < self.lbloff
            || self.funcoff < self.objtoff
            || self.typeoff < self.funcoff
            || self.stroff < self.typeoff
    }

    fn is_misaligned(&self) -> bool
        ensures { result ≡ misaligned (fields_of self.now) }
    {
        self.lbloff % 4 > 0 || self.objtoff % 2 > 0 || self.funcoff % 2 > 0 || self.typeoff % 4 > 0
    }
}

/// The header of a dictionary whose sections follow one another inside it.
#[derive(Clone, Copy, Debug, PartialEq, Eq)]
pub struct Header {
    numbers: Numbers,
}

impl Model for Header {
    ghost use Rattle.ctf_model.specs.format.Header.{Fields};
    ghost use Rattle.ctf_sections.specs.HeaderView.{fields_of, numbers_of, IsInOrder};

    ghost Value = { Fields };

    ghost view = { λ h. fields_of h.numbers };

    ghost invariant = { λ h. IsInOrder h.numbers };

    ghost inverse = { λ h. record { numbers = numbers_of h } };
}

/// The place that an offset in the header means: offsets count from the end of the header.
fn place(offset: u32) -> usize
    ensures { result ≡ 36 + offset }
{
    36 + offset as usize
}

impl Header {
    /// Reads and checks the header at the front of a dictionary (ctf(5), "The CTF Header").
    pub fn read(ctf: &[u8]) -> Result<Header, Fault>
        ensures fields { IfOk result (λ h. h ≡ fields ctf.now) }
        ensures inside { IfOk result (λ h. 36 + h.stroff + h.strlen ≤ length ctf.now) }
        ensures exact_ok { OnOk result (header_fault ctf.now ≡ None) }
        ensures exact_err { IfErr result (λ f. header_fault ctf.now ≡ Some f) }
    {
        if ctf.len() < 4 {
            return Err(placeless(Fault::TOO_SHORT));
        }
        if u16_at(ctf, 0) != 0xcff1 {
            return Err(placeless(Fault::BAD_MAGIC));
        }
        if ctf[2] != 2 {
            return Err(placeless(Fault::BAD_VERSION));
        }
        if ctf[3] % 2 == 1 {
            return Err(placeless(Fault::COMPRESSED));
        }
        if ctf.len() < 36 {
            return Err(placeless(Fault::SHORT_HEADER));
        }
        let numbers = Numbers::read(ctf);
        if numbers.is_out_of_order() {
            return Err(placeless(Fault::BAD_ORDER));
        }
        if numbers.is_misaligned() {
            return Err(placeless(Fault::BAD_ALIGN));
        }
        let start = place(numbers.stroff);
        if start + numbers.strlen as usize > ctf.len() {
            return Err(placeless(Fault::PAST_END));
        }
        if numbers.strlen > 0 && ctf[start] != 0 {
            return Err(placeless(Fault::BAD_STRINGS));
        }
        Ok(Header { numbers })
    }

    /// Where a section begins and ends, in bytes from the dictionary's front.
    pub fn range(&self, section: Section) -> (usize, usize)
        ensures range { result ≡ range_of self.now section }
        ensures order { result.0 ≤ result.1 }
        ensures inside { result.1 ≤ 36 + self.now.stroff + self.now.strlen }
    {
        let n = &self.numbers;
        match section {
            Section::SLabels => (place(n.lbloff), place(n.objtoff)),
            Section::SObjects => (place(n.objtoff), place(n.funcoff)),
            Section::SFunctions => (place(n.funcoff), place(n.typeoff)),
            Section::STypes => (place(n.typeoff), place(n.stroff)),
            Section::SStrings => (place(n.stroff), place(n.stroff) + n.strlen as usize),
        }
    }

    /// The reference to the name of the label up to which the parent is used.
    pub fn parlabel(&self) -> u32
        ensures { result ≡ self.now.parlabel }
    {
        self.numbers.parlabel
    }

    /// The reference to the parent's name; 0 if the dictionary is no child.
    pub fn parname(&self) -> u32
        ensures { result ≡ self.now.parname }
    {
        self.numbers.parname
    }
}
