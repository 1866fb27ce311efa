// The engine for C: one static library, whose header is include/zurkeb.h. A struct goes by value; the answers are those of `answers`. Each
// export is a function of its own, since C calls it by its name.
#![tactic(auto)]

pub mod answers;
pub mod boundary;
pub mod lines;
pub mod logs;
pub mod numbers;
pub mod patterns;
pub mod routes;
pub mod steps;
