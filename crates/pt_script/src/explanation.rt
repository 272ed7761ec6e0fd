//! Why a text is no script, in words. The texts are those of `docs/SCRIPTS.md`.

mod blocks;
mod explaining;
mod finding;
mod looking;
mod scope;
mod spot;
mod tables;
mod walking;
mod why;

pub use explaining::explain;
