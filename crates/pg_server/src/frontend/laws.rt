//! Laws of what is read of a client's messages: functions without a body, whose contracts are the laws.

ghost use Rattle.pg_server.specs.declared.frontend.error.FrontendFault.{FrontendFault};
ghost use Rattle.pg_server.specs.declared.frontend.target.Target.{Target};
ghost use Rattle.pg_base.specs.Derived.{IsEqualByValue, IsClonedByValue};

use crate::frontend::Target;
use crate::frontend::error::FrontendFault;

/// Faults are equal where they are the same, and so are targets.
#[tactic(auto, using(crate::proofs::FrontendErrorLemmas::same_faults))]
pub fn values_are_equal_where_they_are_the_same()
    ensures faults { IsEqualByValue ⟦<FrontendFault as PartialEq>⟧.eq }
    ensures targets { IsEqualByValue ⟦<Target as PartialEq>⟧.eq }
{}

/// A clone is the value that was cloned.
pub fn clones_are_equal()
    ensures faults { IsClonedByValue ⟦<FrontendFault as Clone>⟧.is_clone }
    ensures targets { IsClonedByValue ⟦<Target as Clone>⟧.is_clone }
{}
