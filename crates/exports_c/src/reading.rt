// Reading a rule, and reading a model.
ghost use Rattle.std.specs.Prelude.{◌≡◌};
ghost use Rattle.rules.specs.Answer as rules;
ghost use Rattle.models.specs.Answer as models;
ghost use Rattle.c_answers.specs.Numbers.{rule_numbers_of, model_numbers_of};

use c_answers::reading::{GcModel, GcRule};

// Reads a rule.
#[unsafe(no_mangle)]
pub extern "C" fn gc_read_rule(rule: &[u8]) -> GcRule
    ensures { result ≡ rule_numbers_of (rules.answer rule.now) }
{
    exports::reading::gc_read_rule(rule)
}

// Reads a model.
#[unsafe(no_mangle)]
pub extern "C" fn gc_read_model(model: &[u8]) -> GcModel
    ensures { result ≡ model_numbers_of (models.answer model.now) }
{
    exports::reading::gc_read_model(model)
}
