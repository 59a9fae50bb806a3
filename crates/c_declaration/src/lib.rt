//! Declarators, initializers and declarations of C (C90 6.5): their trees, which tokens are one, and reading one.
#![tactic(auto)]

mod braces;
mod built;
mod closing;
mod declarator;
mod file;
mod front;
mod function;
mod grown;
mod initial;
mod laws;
mod local;
mod members;
mod name;
mod state;
mod step;
mod unnamed;

pub use braces::BuiltBraces;
pub use built::Built;
pub use c_trees::declaration::{
    Declarator, DeclaratorNode, Declared, FileSpec, FunctionHead, Head, Initial, InitialNode,
    Local, MemberPart, Parameter, ParameterNode, Storage,
};
pub use declarator::declarator_offer;
pub use file::file_offer;
pub use front::Stars;
pub use function::BuiltFunction;
pub use initial::initial_offer;
pub use laws::{
    declarators_are_read, heads_are_read, initials_are_read, locals_are_read, one_tree,
};
pub use local::local_offer;
pub use members::members_offer;
pub use name::name_offer;
pub use state::{
    Bounded, DeclaratorParser, DeclaratorStep, FileFront, FileParser, FileStep, Frame, InitialMode,
    InitialParser, InitialStep, LocalFront, LocalParser, LocalStep, MembersParser, MembersStep,
    Mode, NameParser, NameStep, Names, OpenBraces, ReadHead, ReadLocal, ReadName, RowMode, RowType,
    Taking,
};
pub use step::Step;
