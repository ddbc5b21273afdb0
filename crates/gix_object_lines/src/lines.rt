//! Lines that commits, tags and logs share: who did something and when, and names of references.

mod actor;
mod digits;
mod full_name;
mod name;
mod time;

pub use crate::lines::actor::{Actor, ActorRef, read_actor, write_actor, write_actor_parts};
pub use crate::lines::full_name::{is_capitals, is_full_name};
pub use crate::lines::name::is_partial_name;
pub use crate::lines::time::{Time, read_time, tells_time, write_time};
