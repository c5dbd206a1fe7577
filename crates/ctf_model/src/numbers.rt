//! Numbers with a range of their own.
ghost use Rattle.std.specs.Prelude.{◌≡◌};
ghost use Rattle.ctf_model.specs.spaces.TypePlaces.{place as place_of};

/// The number of a type. A parent's types are 1 to their count, a child's own ones 0x8001 and up;
/// 0 is no type.
#[derive(Clone, Copy, Debug, PartialEq, Eq)]
pub struct TypeNum(pub u16);

/// Where the type with a number is, counted from 0. The type need not exist.
#[derive(Clone, Copy, Debug, PartialEq, Eq)]
pub enum Place {
    /// No type has the number.
    Nowhere,
    /// Among the dictionary's own types.
    Own(usize),
    /// Among those of its parent.
    Parents(usize),
}

impl TypeNum {
    /// Where the type is, for a number in a child or in another dictionary.
    pub fn place(self, child: bool) -> Place
        ensures { result ≡ place_of child self.0 }
    {
        let number = self.0 as usize;
        match number {
            0 => Place::Nowhere,
            _ if !child => Place::Own(number - 1),
            0x8000 => Place::Nowhere,
            1..0x8000 => Place::Parents(number - 1),
            _ => Place::Own(number - 0x8001),
        }
    }
}
