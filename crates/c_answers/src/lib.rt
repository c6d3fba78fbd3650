// The answers of the C interface that include/gongcollar.h declares: structs of numbers, and the numbers of each answer of the library.
// `refused` is 0 for an answer, else the refusal's number with its place, and the rest is 0.
#![tactic(auto)]

pub mod reading; // a rule, a model
pub mod modelling; // the model of two formulas
pub mod building; // a rule's table
pub mod judging; // the plain judge
pub mod stepping; // a walker
pub mod following; // a whole sequence
pub mod lasting_states; // which states of a model last
pub mod searching; // a model, for a rule
pub mod converting; // a table as rows by letter
pub mod trimming; // a table without the states that do no work
pub mod texting; // a rule as text
