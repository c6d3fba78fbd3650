// Reading a rule, and reading a model.
ghost use Rattle.std.specs.Prelude.{◌≡◌};
ghost use Rattle.rules.specs.Answer as rules;
ghost use Rattle.models.specs.Answer as models;
ghost use Rattle.c_answers.specs.Numbers.{rule_numbers_of, model_numbers_of};

use c_answers::reading::{GcModel, GcRule, model_numbers, rule_numbers};

// Reads a rule.
pub fn gc_read_rule(rule: &[u8]) -> GcRule
    ensures { result ≡ rule_numbers_of (rules.answer rule.now) }
{
    rule_numbers(rules::read_rule(rule))
}

// Reads a model.
pub fn gc_read_model(model: &[u8]) -> GcModel
    ensures { result ≡ model_numbers_of (models.answer model.now) }
{
    model_numbers(models::read_model(model))
}
