//! The sizes, alignments and resolved types of all types of a space.
ghost use Rattle.std.specs.Prelude.{◌≡◌, ◌+◌, ◌<◌, ◌≤◌, IfOk, OnOk, None};
ghost use Rattle.std.specs.Option.{ForSome, option_map};
ghost use Rattle.std.specs.Result.{result_map_both};
ghost use Rattle.ctf_chains.specs.Places.{cap};
ghost use Rattle.ctf_layout.specs.Extents.{IsAnswered, IsExtent};
ghost use Rattle.ctf_layout.specs.Kept.{AreExtents};
ghost use Rattle.ctf_layout.specs.Fitting.{Fits, steps_of};
ghost use Rattle.ctf_layout.specs.Over.{OverParent};
ghost use Rattle.ctf_layout.specs.SmallExtents.{extents_in};
ghost use Rattle.ctf_layout.specs.Work.{space_size, space_work, types_and_members, types_work};
ghost use Rattle.ctf_model.specs.figures.FigureLaws.{parent_alone};
ghost use Rattle.ctf_model.specs.opened.Questions.{align_answered, resolved_answered, size_answered};
ghost use Rattle.ctf_model.specs.figures.Figures.{align as align_of, resolved_type as resolved_of, size as size_of};
ghost use Rattle.ctf_model.specs.spaces.Space.{Space as WholeSpace};
ghost use Rattle.ctf_space.specs.SpaceView.{space_of};

use crate::extents::{Extent, Refusal, of_no_type, refused};
use crate::kept::Extents;
use crate::source::LayoutInput;
use ctf_chains::Ticks;
use ctf_model::{Fault, Place, TypeNum};
use ctf_space::Space;
use std::alloc::{AllocError, Global};
use std::marker::Brand;
use std::rc::Rc;
use std::sync::ledger::{Blank, Ledger};

/// The sizes and alignments of the types of a dictionary, and of its parent's where it has one, and
/// the types that they stand for, found once: a look-up takes constant time, and no memory.
///
/// It keeps plain numbers, 8 bytes for most own types and 24 for each at most, and borrows nothing.
/// Those of a parent are shared with the parent's own layout.
#[derive(Drop)]
pub struct Layout {
    child: bool,
    own: Rc<Extents>,
    parent: Option<Rc<Extents>>,
    steps: u64,
}

/// The extents in a shared table.
fn lend_extents(extents: &Option<Rc<Extents>>) -> Option<&Extents>
    ensures { option_map (λ e. e.now) result ≡ option_map (λ rc. rc.value) extents.now }
{
    match extents {
        Some(shared) => Some(shared),
        None => None,
    }
}

/// The layout of a space, with that of its parent.
fn beside<L: Ledger>(
    alloc: Global,
    space: &Space<'_>,
    parent: Option<Rc<Extents>>,
    work: &mut Ticks<L>,
) -> Result<Layout, AllocError>
    requires { OverParent (space_of space.now) (option_map (λ rc. extents_in rc.value) parent) }
    ensures fits { IfOk result (λ l. Fits (space_of space.now) l) }
    ensures steps { IfOk result (λ l. steps_of l ≡ cap work.new) }
    ensures work { OnOk result (work.new
        ≡ work.old + types_work (space_of space.now).own.terms) }
{
    let source = LayoutInput {
        space: *space,
        dictionary: space.dictionary(),
        parent: lend_extents(&parent),
    };
    let own = Extents::build(alloc, &source, work)?;
    Ok(Layout {
        child: space.child(),
        own: Rc::new(alloc, own)?,
        parent,
        steps: work.count(),
    })
}

/// The layout of a space. If the space has a parent, the parent's types are computed first.
fn of_space<L: Ledger>(alloc: Global, space: &Space<'_>, blank: Blank) -> Result<Layout, AllocError>
    requires name { blank.name ≡ L.name }
    requires parts { blank.parts ≡ L.parts }
    requires some { 0 < blank.parts }
    ensures fits { IfOk result (λ l. Fits (space_of space.now) l) }
    ensures steps { IfOk result (λ l. steps_of l ≡ cap (space_work (space_of space.now))) }
{
    let mut work = Ticks::<L>::new(blank);
    let parent = match space.parent() {
        Some(parent) => Some(by_itself(alloc, parent, &mut work)?),
        None => None,
    };
    beside(alloc, space, parent, &mut work)
}

/// The extents of a space without a parent, to be shared.
fn by_itself<L: Ledger>(
    alloc: Global,
    space: Space<'_>,
    work: &mut Ticks<L>,
) -> Result<Rc<Extents>, AllocError>
    requires { (space_of space).parent ≡ None }
    ensures right { IfOk result (λ rc. AreExtents (space_of space.entry) (extents_in rc.value)) }
    ensures work { OnOk result (work.new
        ≡ work.old + types_work (space_of space.entry).own.terms) }
{
    let source = LayoutInput {
        space,
        dictionary: space.dictionary(),
        parent: None,
    };
    let extents = Extents::build(alloc, &source, work)?;
    Ok(Rc::new(alloc, extents)?)
}

/// The layout of a space in a ledger of its own, with the shared one of its parent.
fn beside_shared<L: Ledger>(
    alloc: Global,
    space: &Space<'_>,
    parent: Option<Rc<Extents>>,
    blank: Blank,
) -> Result<Layout, AllocError>
    requires over { OverParent (space_of space.now)
        (option_map (λ rc. extents_in rc.value) parent) }
    requires name { blank.name ≡ L.name }
    requires parts { blank.parts ≡ L.parts }
    requires some { 0 < blank.parts }
    ensures fits { IfOk result (λ l. Fits (space_of space.now) l) }
    ensures steps { IfOk result (λ l. steps_of l
        ≡ cap (types_work (space_of space.now).own.terms)) }
{
    let mut work = Ticks::<L>::new(blank);
    beside(alloc, space, parent, &mut work)
}

impl Layout {
    /// The layout of a space. If the space has a parent, the parent's types are computed too.
    pub fn build(alloc: Global, space: &Space<'_>) -> Result<Layout, AllocError>
        ensures fits { IfOk result (λ l. Fits (space_of space.now) l) }
        ensures steps { IfOk result (λ l. steps_of l ≡ cap (space_work (space_of space.now))) }
        ensures bounded { IfOk result (λ l. steps_of l ≤ space_size (space_of space.now)) }
    {
        of_space::<Brand>(alloc, space, Blank::new(1))
    }

    /// The layout of a space over a parent. It shares the parent's own layout, which is given, and
    /// computes only the own types.
    pub fn over(alloc: Global, space: &Space<'_>, parent: &Layout) -> Result<Layout, AllocError>
        requires { ForSome (space_of space.now).parent
            (λ p. Fits (parent_alone (space_of space.now) p) parent.now) }
        ensures fits { IfOk result (λ l. Fits (space_of space.now) l) }
        ensures steps { IfOk result (λ l. steps_of l
            ≡ cap (types_work (space_of space.now).own.terms)) }
        ensures bounded { IfOk result (λ l. steps_of l
            ≤ types_and_members (space_of space.now).own.terms) }
    {
        let shared = match space.parent() {
            Some(_) => Some(parent.own.clone()?),
            None => None,
        };
        beside_shared::<Brand>(alloc, space, shared, Blank::new(1))
    }

    /// The cost of building: one for each type that was begun, and one for each member that was
    /// read.
    pub fn steps(&self) -> u64
        ensures { result ≡ steps_of self.now }
    {
        self.steps
    }

    /// The extent of the type with a number.
    #[inline(always)]
    fn extent(&self, number: TypeNum) -> Extent
        ensures { (s : WholeSpace) → Fits s self.now → IsExtent s number.0 result }
    {
        if number.0 == 0 {
            return of_no_type();
        }
        match number.place(self.child) {
            Place::Own(i) => self.own.at(i),
            Place::Parents(i) => match &self.parent {
                Some(parent) => parent.at(i),
                None => refused(Refusal::NoParent),
            },
            Place::Nowhere => refused(Refusal::NoType),
        }
    }

    /// The same, in fewer steps for an own type.
    #[inline(always)]
    fn quick_extent(&self, number: TypeNum) -> Extent
        ensures { (s : WholeSpace) → Fits s self.now → IsExtent s number.0 result }
    {
        match number.place(self.child) {
            Place::Own(i) => self.own.at(i),
            _ => self.extent(number),
        }
    }

    /// The size, the alignment and the resolved type of a type, by one look-up. Takes constant
    /// time.
    #[inline(always)]
    pub fn figures(&self, number: TypeNum) -> Extent
        ensures extent { (s : WholeSpace) → Fits s self.now → IsExtent s number.0 result }
        ensures answered { (s : WholeSpace) → Fits s self.now → 0 < number.0
            → IsAnswered s number.0 result }
    {
        self.quick_extent(number)
    }

    /// The size in bytes of a value of the type that a number names. It takes constant time.
    #[inline(always)]
    pub fn size(&self, number: TypeNum) -> Result<u64, Fault>
        ensures size { (s : WholeSpace) → Fits s self.now → result ≡ size_of s number.0 }
        ensures answered { (s : WholeSpace) → Fits s self.now → 0 < number.0
            → result ≡ size_answered s number.0 }
    {
        self.extent(number).size.get()
    }

    /// The alignment in bytes of the type that a number names. It takes constant time.
    #[inline(always)]
    pub fn align(&self, number: TypeNum) -> Result<u64, Fault>
        ensures align { (s : WholeSpace) → Fits s self.now → result ≡ align_of s number.0 }
        ensures answered { (s : WholeSpace) → Fits s self.now → 0 < number.0
            → result ≡ align_answered s number.0 }
    {
        self.extent(number).align.get()
    }

    /// The type that a type resolves to, through typedefs and qualifiers; 0 if that is no type.
    /// Takes constant time.
    #[inline(always)]
    pub fn resolve(&self, number: TypeNum) -> Result<TypeNum, Fault>
        ensures resolved { (s : WholeSpace) → Fits s self.now
            → result_map_both (λ t. t.0) (λ f. f) result ≡ resolved_of s number.0 }
        ensures answered { (s : WholeSpace) → Fits s self.now → 0 < number.0
            → result_map_both (λ t. t.0) (λ f. f) result ≡ resolved_answered s number.0 }
    {
        self.extent(number).target.get()
    }
}
