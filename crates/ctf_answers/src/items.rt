//! Lists, and their items.
ghost use Rattle.std.specs.Prelude.{◌≡◌, ◌<◌, length, Some, slice_get};
ghost use Rattle.ctf_answers.specs.Items.{item_of, items_of};

use ctf_model::TypeNum;
use ctf_views::{Args, Enumerator, Enumerators, Label, Labels, Member, Members};

/// An item of a list, as the dictionary has it.
#[derive(Clone, Copy)]
pub enum Item<'a> {
    Member(Member<'a>),
    Enumerator(Enumerator<'a>),
    /// The type of an argument.
    Argument(TypeNum),
    Label(Label<'a>),
}

/// All items of a list.
#[derive(Drop)]
pub enum Items<'a> {
    Members(Members<'a>),
    Enumerators(Enumerators<'a>),
    Arguments(Args<'a>),
    Labels(Labels<'a>),
}

impl<'a> Items<'a> {
    pub fn len(&self) -> usize
        ensures { result ≡ length (items_of self.now) }
    {
        match self {
            Items::Members(members) => members.len(),
            Items::Enumerators(enumerators) => enumerators.len(),
            Items::Arguments(args) => args.len(),
            Items::Labels(labels) => labels.len(),
        }
    }

    /// The item with a number, from 0.
    #[inline(always)]
    pub(crate) fn get(&self, index: usize) -> Item<'a>
        requires { index < length (items_of self.now) }
        ensures { Some (item_of result) ≡ slice_get (items_of self.now) index }
    {
        match self {
            Items::Members(members) => Item::Member(members.get(index).unwrap()),
            Items::Enumerators(enumerators) => Item::Enumerator(enumerators.get(index).unwrap()),
            Items::Arguments(args) => Item::Argument(args.get(index).unwrap()),
            Items::Labels(labels) => Item::Label(labels.get(index).unwrap()),
        }
    }
}
