ghost use Rattle.std.specs.Prelude.{◌≡◌, IfOk};

use crate::params::Params;
use dubp_atoms::NoMemory;
use std::alloc::Global;
use std::marker::Model;

/// Parameters that lie apart from the value that has them, for a value that mostly has none.
///
/// Contracts see the parameters.
#[derive(Debug, Drop)]
pub struct BoxedParams {
    inner: Box<Params>,
}

impl Model for BoxedParams {
    ghost use Rattle.dubp_params.specs.declared.params.Params.{Params};

    ghost Value = { Params };

    ghost view = { λ b. b.inner.value };
}

impl BoxedParams {
    /// The parameters, in a place of their own. `NoMemory` where there is no room for them.
    pub fn new(alloc: Global, params: Params) -> Result<BoxedParams, NoMemory>
        ensures { IfOk result (λ boxed. boxed ≡ params) }
    {
        let inner = Box::new(alloc, params).map_err(|_| NoMemory)?;
        Ok(BoxedParams { inner })
    }

    /// The parameters.
    pub fn get(&self) -> &Params
        ensures { result.now ≡ self.now }
    {
        &self.inner
    }
}

/// The parameters, where there are some, in a place of their own. `NoMemory` where there is no room for them.
pub fn boxed_params(alloc: Global, params: Option<Params>) -> Result<Option<BoxedParams>, NoMemory>
    ensures { IfOk result (λ boxed. boxed ≡ params) }
{
    match params {
        Some(params) => Ok(Some(BoxedParams::new(alloc, params)?)),
        None => Ok(None),
    }
}
