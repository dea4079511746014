ghost use Rattle.std.specs.Prelude.{◌≡◌, [], ◌∷◌, Some};
ghost use Rattle.dubp_chain.specs.Chains.{Chain, params};
ghost use Rattle.dubp_chain.specs.Heads.{head_of};
ghost use Rattle.dubp_left.specs.Next.{IsNext};

use dubp_atoms::Dec;
use dubp_block::Block;
use dubp_chain::Head;
use dubp_facts::Facts;
use dubp_moving::Tables;
use dubp_params::Params;

/// What holds of a chain with the block on it that stands to be judged or written: its parameters, and its time in seconds.
#[derive(Clone, Copy, Debug, PartialEq, Eq)]
pub struct Next {
    pub params: Params,
    pub time: u64,
}

const NO_DEC: Dec = Dec {
    mantissa: 0,
    places: 0,
};

/// What stands for the parameters where no block sets them.
const NO_PARAMS: Params = Params {
    c: NO_DEC,
    dt: 0,
    ud0: 0,
    sig_period: 0,
    sig_stock: 0,
    sig_window: 0,
    sig_validity: 0,
    sig_qty: 0,
    idty_window: 0,
    ms_window: 0,
    xpercent: NO_DEC,
    ms_validity: 0,
    step_max: 0,
    median_time_blocks: 0,
    avg_gen_time: 0,
    dt_diff_eval: 0,
    percent_rot: NO_DEC,
    ud_time0: 0,
    ud_reeval_time0: 0,
    dt_reeval: 0,
};

/// The parameters and the time of the chain with the block, whose head this is, from the facts of the chain.
pub fn next_of(facts: &Facts, block: &Block, head: &Head) -> Next
    ensures { (c : Chain) → ⟦<Facts as Tables<Block>>⟧.at facts.now c → head_of (block.now ∷ c) ≡ Some head.now → IsNext c block.now result }
{
    Next {
        params: params_with(facts, block),
        time: head.median_time,
    }
}

/// The parameters of the chain with the block.
fn params_with(facts: &Facts, block: &Block) -> Params
    ensures { (c : Chain) → ⟦<Facts as Tables<Block>>⟧.at facts.now c → result ≡ params (block.now ∷ c) }
{
    match facts.first() {
        Some(first) => first.params,
        None => stated(block),
    }
}

/// The parameters that the block states.
fn stated(block: &Block) -> Params
    ensures { result ≡ params (block.now ∷ []) }
{
    match &block.params {
        Some(params) => *params.get(),
        None => NO_PARAMS,
    }
}
