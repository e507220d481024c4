//! The rules, in two ways.
ghost use Rattle.programs.specs.Passing.{RuleLaws};

/// Words keep the rules exactly if each is allowed in turn by state and brackets, they end begun or stored,
/// and they stay within the limits, as a contract.
pub fn rules_agree()
    ensures { RuleLaws }
{}
