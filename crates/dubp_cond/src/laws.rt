//! Different values have different texts. Each function here is a law: it does nothing, and its contract is the law.
ghost use Rattle.std.specs.Prelude.{◌≡◌};
ghost use Rattle.dubp_cond.specs.Tree.{CondTree};
ghost use Rattle.dubp_cond.specs.Conditions.{cond_text, IsCond};
ghost use Rattle.dubp_cond.specs.Sources.{input_text, IsInput};
ghost use Rattle.dubp_cond.specs.SourceOrder.{derived_cmp, source_cmp};
ghost use Rattle.dubp_cond.specs.Unlocks.{unlock_line_text, IsUnlockLine};
ghost use Rattle.dubp_cond.specs.Outputs.{output_text, IsOutput};
ghost use Rattle.dubp_cond.specs.declared.source.SourceId.{SourceId as SourceIdValue};
ghost use Rattle.dubp_cond.specs.declared.source.Input.{Input as InputValue};
ghost use Rattle.dubp_cond.specs.declared.unlock.UnlockLine.{UnlockLine as UnlockLineValue};
ghost use Rattle.dubp_cond.specs.declared.output.Output.{Output as OutputValue};

/// Two conditions of one text are one.
pub fn conditions_have_one_text()
    ensures { (c d : CondTree) → IsCond c → IsCond d → cond_text c ≡ cond_text d → c ≡ d }
{}

/// Two inputs of one text are one.
pub fn inputs_have_one_text()
    ensures { (i j : InputValue) → IsInput i → IsInput j → input_text i ≡ input_text j → i ≡ j }
{}

/// Two unlock lines of one text are one.
pub fn unlock_lines_have_one_text()
    ensures { (l m : UnlockLineValue) → IsUnlockLine l → IsUnlockLine m → unlock_line_text l ≡ unlock_line_text m → l ≡ m }
{}

/// Two outputs of one text are one.
pub fn outputs_have_one_text()
    ensures { (o p : OutputValue) → IsOutput o → IsOutput p → output_text o ≡ output_text p → o ≡ p }
{}

/// The order of sources, by which they are keys of maps: dividends before outputs, each by its fields.
pub fn sources_are_ordered()
    ensures { (a b : SourceIdValue) → derived_cmp a b ≡ source_cmp a b }
{}
