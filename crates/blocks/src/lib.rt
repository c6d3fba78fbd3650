// Fills a table in place: the labels of each operator over the blocks of its operands.
#![tactic(auto)]

pub mod span; // where a block stands
pub mod pairs; // where the pairs of `&&` stand
pub mod clear; // no label
pub mod link; // `;` and the repetitions
pub mod overlap; // `:`
pub mod choice; // `|`
pub mod product; // `&&`
pub mod any; // `true[*]`, for `&`
pub mod within; // `&`
pub mod row; // `[*i..j]`
pub mod tally; // `[=i..j]`
pub mod fill; // the labels of a rule, in place
