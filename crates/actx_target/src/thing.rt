//! The things of the heap: objects, errors, functions and WeakMaps.

use crate::chain::Chain;
use crate::entries::Entries;
use crate::sound::Sound;
use crate::table::Table;
use actx_ast::tree::Function;
use actx_data::{ErrorName, Units};

/// The functions that the machine brings along.
#[derive(Clone, Copy, Drop)]
pub enum Method {
    WeakMapGet,
    WeakMapSet,
}

/// A thing of the heap.
#[derive(Drop)]
pub enum Thing<'a> {
    /// An object whose properties may be set.
    Plain(Table),
    /// What has the same properties for ever.
    Listed(Table),
    Failure(ErrorName, Units),
    /// A function of the program, with the scopes round it and the receiver that an arrow keeps.
    Closure(&'a Function, Chain, Sound),
    Native(Method),
    Weak(Entries),
}
