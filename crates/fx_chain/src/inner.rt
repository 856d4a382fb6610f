//! What freezing a chain frame by frame needs, beyond the public calls.
ghost use Rattle.std.specs.Prelude.{◌≡◌};
ghost use Rattle.fx_chain.specs.Chain.{IsChain};

use crate::chain::Chain;
use fx_chain_flow::flow::Flow;
use fx_chain_stages::EffectStage;

/// The inlet and the stages of a chain, to be looked at.
pub fn flow_of(chain: &Chain) -> &Flow<EffectStage>
    ensures flow { result.now ≡ chain.now.flow }
    ensures chain { IsChain chain.now }
{
    &chain.flow
}
