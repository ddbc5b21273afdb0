//! Names of references: full and partial ones, categories, namespaces, after `gix-ref` 0.67.
#![tactic(auto)]

mod category;
pub mod compose;
mod front;
mod fullname;
pub mod name;
pub mod namespace;
mod target;

pub use crate::category::Category;
pub use crate::fullname::{FullName, FullNameRef};
pub use crate::name::{PartialName, PartialNameRef};
pub use crate::namespace::Namespace;
pub use crate::target::{Kind, Target, TargetRef};
