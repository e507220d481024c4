//! The worked examples: one fact about the definitions.
#![tactic(auto)]

ghost use Rattle.worked.specs.Examples.{WorkedExamples};

/// What the definitions make of the worked cards, rungs and lines.
pub fn worked_examples()
    ensures { WorkedExamples }
{}
