//! The numbers of data queries.

ghost use Rattle.std.specs.List.{AllByRecursion};
ghost use Rattle.ps_definitions.specs.RuleSets.{AreRules};
ghost use Rattle.ps_store.specs.Laws.{HaveNumbers};
ghost use Rattle.ps_store.specs.Numbers.{IsNumbered};

use ps_definitions::{Planned, Rules};

// A query's number has 32 bits: to read it says so.
fn read_number(planned: &Planned)
    ensures { IsNumbered planned.now }
{
    let _number = planned.number;
}

// All numbers of a definition's queries have.
#[tactic(auto, using(crate::proofs::Numbering::numbered_before))]
fn read_numbers(queries: &[Planned])
    ensures { AllByRecursion IsNumbered queries.now }
{
    'queries: for planned in queries {
        read_number(planned);
    }
}

/// The numbers of all data queries have 32 bits, and rules keep what they keep. It does nothing but to say so, for the laws
/// that ask for it.
#[tactic(auto, using(crate::proofs::Numbering::definitions_before, crate::proofs::Numbering::have_numbers_of))]
pub fn have_numbers(rules: &Rules)
    ensures numbers { HaveNumbers rules.now.definitions }
    ensures rules { AreRules rules.now }
{
    'definitions: for definition in rules.definitions() {
        read_numbers(definition.queries.as_slice());
    }
}
