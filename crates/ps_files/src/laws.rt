//! The laws of made input. Each is the contract of a function that does nothing.

ghost use Rattle.ps_files.specs.MadeRules.{MadeInputIsAdmitted, MadeRulesAreRead};

/// A law: the text of the made rules is read as one definition, with a parameter, by which its data query finds the rows.
pub fn made_rules_are_read()
    ensures { MadeRulesAreRead }
{}

/// A law: under the made rules no change of made transactions passes a limit.
pub fn made_input_is_admitted()
    ensures { MadeInputIsAdmitted }
{}
