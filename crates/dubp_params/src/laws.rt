//! A law of the text: the function does nothing, and its contract is the law.
ghost use Rattle.std.specs.Prelude.{◌≡◌};
ghost use Rattle.dubp_params.specs.Spelling.{IsParams, params_text};
ghost use Rattle.dubp_params.specs.declared.params.Params.{Params as ParamsValue};

/// Two lists of parameters of one text are one.
pub fn parameters_have_one_text()
    ensures { (p q : ParamsValue) → IsParams p → IsParams q → params_text p ≡ params_text q → p ≡ q }
{}
