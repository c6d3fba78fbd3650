// The static library that C programs link: each call of `exports`, under its own symbol and with the same clauses.
// include/gongcollar.h declares the calls; a slice is passed as a pointer and a length.
#![tactic(auto)]

mod reading; // a rule, a model
mod modelling; // the model of two formulas
mod building; // a rule's table
mod judging; // the plain judge
mod stepping; // a walker
mod following; // a whole sequence
mod lasting_states; // which states of a model last
mod searching; // a model, for a rule
mod converting; // a table as rows by letter
mod trimming; // a table without the states that do no work
mod checking; // one input, as a line
mod texting; // a rule as text
