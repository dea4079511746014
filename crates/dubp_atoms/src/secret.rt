ghost use Rattle.dubp_atoms.specs.Secrets.{begun};

use std::hash::{BuildHasher, DefaultHasher, RandomState};

/// What the hash tables are keyed by whose entries strangers choose: who does not know it makes no entries that collide.
///
/// No answer and no contract depends on it.
#[derive(Clone, Copy)]
pub struct Secret {
    begun: DefaultHasher,
}

impl Secret {
    /// The secret that everybody knows: for tables that no stranger fills.
    pub fn known() -> Secret {
        Secret {
            begun: DefaultHasher::new(),
        }
    }

    /// A secret of the system's.
    pub fn of(state: RandomState) -> Secret {
        Secret {
            begun: state.build_hasher(),
        }
    }
}

impl BuildHasher for Secret {
    type Hasher = DefaultHasher;

    ghost build_hasher = { begun };

    fn build_hasher(&self) -> DefaultHasher {
        self.begun
    }
}
