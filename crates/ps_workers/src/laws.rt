//! Laws of shared stores. Each is the contract of a function that does nothing.

ghost use Rattle.ps_workers.specs.SharedLaws.{SharedStoresHaveRules};

/// The rules in force are the first rules of a shared store or those that may come, and a generation that is being built has those that may
/// come.
pub fn shared_stores_have_rules()
    ensures { SharedStoresHaveRules }
{}
