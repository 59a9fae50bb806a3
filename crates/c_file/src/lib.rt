//! Declarations and functions of files, in their order.
#![tactic(auto)]

mod declarations;
mod externals;
mod files;
mod function_rows;
mod functions;

pub use files::all_files;
