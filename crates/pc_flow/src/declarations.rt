//! The context of conditions and joins, apart from environments.

use crate::{DeclaredTypes, OwnerNames};
use pc_types::Parents;

/// The context of conditions and joins in the body of an owner: the bases of the classes, the declared types of its
/// locals so far, and the meaning of names there. Own rule of the profile.
#[derive(Drop)]
pub struct Declarations<'d, Ty: Drop> {
    pub parents: &'d Parents,
    pub declared: &'d DeclaredTypes<Ty>,
    pub names: &'d OwnerNames<'d>,
}
