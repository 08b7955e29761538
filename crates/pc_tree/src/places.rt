//! Places of nodes.
ghost use Rattle.std.specs.Prelude.{◌≡◌};
ghost use Rattle.pc_tree.specs.Tree.{expr_of, ann_of};
ghost use Rattle.pc_tree.specs.Depth.{place_of, place_of_ann};

use crate::tree::{Ann, Expr};
use pc_source::Place;

impl Expr {
    /// Returns the expression's place, from first to last token, without parentheses around it. Own rule of the
    /// profile.
    pub fn place(&self) -> Place
        ensures { result ≡ place_of (expr_of self.now) }
    {
        match self {
            Expr::Name(name) => name.place,
            Expr::Int(place, _) | Expr::Str(place, _) => *place,
            Expr::True(place) | Expr::False(place) | Expr::NoneValue(place) => *place,
            Expr::Tuple(place, _) | Expr::List(place, _) => *place,
            Expr::Dict(place, _) => *place,
            Expr::Negative(place, _) | Expr::Not(place, _) => *place,
            Expr::Binary { place, .. } => *place,
            Expr::Compare { place, .. } => *place,
            Expr::IsNone(place, _) | Expr::IsNotNone(place, _) => *place,
            Expr::And { place, .. } | Expr::Or { place, .. } => *place,
            Expr::Attribute { place, .. } => *place,
            Expr::Index { place, .. } => *place,
            Expr::Call { place, .. } => *place,
        }
    }
}

impl Ann {
    /// Returns the annotation's place, from first to last token. Own rule of the profile.
    pub fn place(&self) -> Place
        ensures { result ≡ place_of_ann (ann_of self.now) }
    {
        match self {
            Ann::Name(name) => name.place,
            Ann::NoneValue(place) => *place,
            Ann::Apply { place, .. } | Ann::Union(place, _) => *place,
            Ann::ApplyEmpty(place, _) => *place,
        }
    }
}
