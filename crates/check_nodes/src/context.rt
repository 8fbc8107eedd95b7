use super::extent::Extent;
use pawn_base::{Bytes, List};
use pawn_tags::{Operators, TagTable};

/// What a parameter is without an argument.
#[derive(Clone, Copy, Debug, PartialEq, Eq)]
pub enum ParamDefault {
    Nothing,
    /// A value and its tag.
    Always(i32, u32),
    /// The first size of the parameter with this number.
    SizeOf(u32),
    /// The tag of the parameter with this number.
    TagOf(u32),
}

/// A parameter: its name, whether it is constant and a reference, its tags, how far its array
/// reaches where it is one, and its default.
#[derive(Drop)]
pub struct Param {
    pub name: Bytes,
    pub constant: bool,
    pub reference: bool,
    pub tags: List<u32>,
    pub extent: Option<Extent>,
    pub default: ParamDefault,
}

/// What a function is called with: its parameters, and the tags of `...` where it has it.
#[derive(Drop)]
pub struct Head {
    pub params: List<Param>,
    pub rest: Option<List<u32>>,
}

/// What can be called: its number, the tag of its result, and its head, unless that isn't known
/// yet.
#[derive(Drop)]
pub struct Callable {
    pub number: u32,
    pub tag: u32,
    pub head: Option<Head>,
}

/// What is known of the whole source: the names of tags, the user operators, the functions by
/// number, and the natives in order of declaration.
#[derive(Drop)]
pub struct Context {
    pub tags: TagTable,
    pub operators: Operators,
    pub functions: List<Callable>,
    pub natives: List<Callable>,
}
