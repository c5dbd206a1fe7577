//! The memory of a program, as the types of a space see it.
ghost use Rattle.ctf_layout.specs.Fitting.{Fits};
ghost use Rattle.ctf_space.specs.SpaceView.{space_of};

use ctf_layout::Layout;
use ctf_model::{Fault, TypeNum};
use ctf_space::Space;

/// The memory of a program, with its types and their sizes.
#[derive(Clone, Copy)]
pub struct Image<'a> {
    pub space: Space<'a>,
    pub layout: &'a Layout,
    pub memory: &'a [u8],
    ghost fits: { Fits (space_of space) layout.now },
}

impl<'a> Image<'a> {
    ghost use Rattle.std.specs.Prelude.{◌≡◌};
    ghost use Rattle.ctf_model.specs.figures.Figures.{size as size_of};
    ghost use Rattle.ctf_print.specs.ImageView.{types_of};

    /// The size in bytes of a value of the type with a number.
    pub fn size(&self, number: TypeNum) -> Result<u64, Fault>
        ensures { result ≡ size_of (types_of self.now) number.0 }
    {
        self.layout.size(number)
    }
}
