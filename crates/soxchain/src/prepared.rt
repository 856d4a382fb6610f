//! What a run needs: a plan and its chain.

use fx_chain::Chain;
use fx_plan::Plan;

/// A plan and its chain.
#[derive(Drop)]
pub struct Prepared {
    pub plan: Plan,
    pub chain: Chain,
}
