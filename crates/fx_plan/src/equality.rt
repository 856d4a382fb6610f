//! When two plans are equal.

ghost use Rattle.std.specs.Prelude.{◌≡◌};
ghost use Rattle.std.specs.Bool.{Decides};
ghost use Rattle.std.specs.Cmp.{partial_equiv_from_equiv};
ghost use Rattle.fx_plan.specs.Equality.{same_parts, same_parts-equiv};
ghost use Rattle.fx_plan.specs.Planning.{planning};

use crate::accepted::Plan;

// Two plans are equal exactly where they have the same parts and their effects do the same. Of two references, `*p == *q`
// states so; `p == q` and `!=` state only the test, and the lemma `plan_exact` states what the test decides.
impl PartialEq for Plan {
    ghost eq = { same_parts };

    ghost laws = { partial_equiv_from_equiv same_parts-equiv };

    fn eq(&self, other: &Plan) -> bool
        ensures value { result ≡ same_parts self.now other.now }
        ensures exact { Decides result (planning self.now ≡ planning other.now) }
    {
        self.head == other.head
            && self.kind == other.kind
            && self.coding == other.coding
            && self.is_named == other.is_named
            && self.effects == other.effects
            && self.layout == other.layout
    }
}

impl Eq for Plan {
    ghost laws = { same_parts-equiv };
}
