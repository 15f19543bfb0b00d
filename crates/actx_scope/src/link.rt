//! What the nodes of a tree refer to.

use actx_grammar::name::Name;

/// What one node refers to.
#[derive(Drop)]
pub enum Link {
    /// Nothing: it is no use of a name.
    Nothing,
    /// The node that declares the name that is used.
    To(u64),
    /// A name that is used where no declaration of it is in scope.
    Free(Name),
}
