// The C interface that include/gongcollar.h declares: one thin function for each call of the library.
// An answer is a struct of numbers by value; a slice is passed as a pointer and a length.
#![tactic(auto)]

pub mod reading; // a rule, a model
pub mod modelling; // the model of two formulas
pub mod building; // a rule's table
pub mod judging; // the plain judge
pub mod stepping; // a walker
pub mod following; // a whole sequence
pub mod lasting_states; // which states of a model last
pub mod searching; // a model, for a rule
pub mod converting; // a table as rows by letter
pub mod trimming; // a table without the states that do no work
pub mod checking; // one input, as a line
pub mod texting; // a rule as text
