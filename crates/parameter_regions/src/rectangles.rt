ghost use Rattle.std.specs.Prelude.{◌≡◌, ◌↔◌, IsTrue};
ghost use Rattle.parameter_regions.specs.Corners.{AreCorners};

use model_params::Params;

/// A rectangle of permittivities and screening lengths, by two of its corners. Potentials are least
/// at `weakest`, which has the greatest permittivity and the least screening length, and greatest
/// at `strongest`, which has the others. All other parameters are the same.
#[derive(Clone, Copy, PartialEq, Eq, Debug)]
pub struct Rectangle {
    pub weakest: Params,
    pub strongest: Params,
    ghost are_corners: { AreCorners weakest strongest },
}

/// Whether these are the weakest and the strongest corner of a rectangle.
pub fn are_corners(weakest: &Params, strongest: &Params) -> bool
    ensures { IsTrue result ↔ AreCorners weakest.now strongest.now }
{
    if weakest.coulomb != strongest.coulomb || weakest.base != strongest.base {
        return false;
    }
    if weakest.depth != strongest.depth || weakest.gap != strongest.gap {
        return false;
    }
    if weakest.eps < strongest.eps || strongest.lam < weakest.lam {
        return false;
    }
    true
}

/// The rectangle between these corners.
pub fn rectangle_between(weakest: Params, strongest: Params) -> Rectangle
    requires { AreCorners weakest strongest }
    ensures weakest { result.weakest ≡ weakest }
    ensures strongest { result.strongest ≡ strongest }
{
    Rectangle { weakest, strongest }
}
