//! What is stored of a line.
ghost use Rattle.std.specs.Prelude.{◌≡◌, length};

use crate::keys::COUNT;
use crate::values::Field;
use ctf_joined::Joined;
use ctf_model::TypeNum;

/// The value at each of the keys, if it is no list.
#[derive(Drop)]
pub struct Fields<'a> {
    pub(crate) all: [Option<Field<'a>>; COUNT],
    ghost whole: { length all ≡ 30 },
}

/// The value of a line at each of the keys.
#[derive(Drop)]
pub struct Line<'a> {
    pub(crate) fields: Fields<'a>,
    pub(crate) names: Option<Joined>,
    pub(crate) args: Option<Vec<TypeNum>>,
}
