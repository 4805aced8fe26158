//! The trees of the text: what an S_define says, with names as they are written. What the text
//! repeats without nesting is a flat list, so that no tree is deeper than the nesting limit allows.

mod definition;
mod expression;
mod statement;

pub use definition::{
    ClassPart, Declarator, Definition, EnumItem, JobLine, Members, Method, SDefine,
};
pub use expression::{Choice, Expr, Link, Part, Path};
pub use statement::{Branch, Change, Stmt, TypeName};
