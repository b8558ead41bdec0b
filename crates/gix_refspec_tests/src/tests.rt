//! Groups and items, what is asked for and mapped, what is refused of memory, and whether values are equal
//! and hash alike.

mod absent;
mod agreement;
mod alike;
mod asking;
mod badnames;
mod collisions;
mod groups;
mod growths;
mod hostile;
mod large;
mod lint;
mod mapping;
mod names;
mod plans;
mod removal;
mod sides;
mod single;
mod stale;
mod validation;
