//! Tests of what no program shows of plans: that walks stay ended and go to any part, the calls that no program makes, and the laws.
//!
//! What a plan holds is data: the rows of `chunkplan` and the vectors of `chunkcalls` have documents and questions with their answers.
//!
//! | Module | What it tests |
//! |---|---|
//! | `rows` | the arrays that are planned, the boxes of their elements, and the lines of parts |
//! | `tasks` | the tasks of a copy |
//! | `cheapest` | the cheapest tasks of a copy |
//! | `stages` | the cheapest stages of a copy |
//! | `walks` | walks that stay ended, and that go to any part or group |
//! | `elements` | the elements that chunks hold |
//! | `marks` | which chunks of a plan a store has |
//! | `refusals` | what no program asks for, since it plans one array at a time |
//! | `laws` | the laws |
#![tactic(auto)]

#[cfg(test)]
mod cheapest;
#[cfg(test)]
mod elements;
#[cfg(test)]
mod laws;
#[cfg(test)]
mod marks;
#[cfg(test)]
mod refusals;
#[cfg(test)]
mod rows;
#[cfg(test)]
mod stages;
#[cfg(test)]
mod tasks;
#[cfg(test)]
mod walks;
