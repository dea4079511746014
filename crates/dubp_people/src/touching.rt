ghost use Rattle.std.specs.Prelude.{◌≡◌, Bool, false};
ghost use Rattle.std.specs.Option.{option_map_or};
ghost use Rattle.dubp_atoms.specs.Same.{Text, same_text};
ghost use Rattle.dubp_people_apply.specs.OfSteps.{touches as record_touches};

use dubp_atoms::Key;
use dubp_block::{CertLine, MemberLine, RevokedLine};
use dubp_validity::Record;

/// What may change whether a key has to be excluded: a line of Joiners, Actives, Revoked, Excluded or Certifications, or a record.
pub(crate) trait Touching {
    ghost touches: { Text → Self → Bool };

    /// The key for which it may change that.
    fn touched(&self) -> Option<Key>
        ensures { (k : Text) → touches k self.now ≡ option_map_or (same_text k) result false };
}

impl Touching for MemberLine {
    ghost touches = { λ k line. same_text k line.key };

    fn touched(&self) -> Option<Key> {
        Some(self.key)
    }
}

impl Touching for RevokedLine {
    ghost touches = { λ k line. same_text k line.key };

    fn touched(&self) -> Option<Key> {
        Some(self.key)
    }
}

impl Touching for Key {
    ghost touches = { same_text };

    fn touched(&self) -> Option<Key> {
        Some(*self)
    }
}

impl Touching for CertLine {
    ghost touches = { λ k line. same_text k line.to };

    fn touched(&self) -> Option<Key> {
        Some(self.to)
    }
}

impl Touching for Record {
    ghost touches = { record_touches };

    fn touched(&self) -> Option<Key> {
        match self {
            Record::Enter { key } => Some(*key),
            Record::Exit { key } => Some(*key),
            Record::Active { key, .. } => Some(*key),
            Record::Revoke { key } => Some(*key),
            Record::Expire { key } => Some(*key),
            Record::ExpireRev { key } => Some(*key),
            Record::Cert { to, .. } => Some(*to),
            Record::CertExpire { to, .. } => Some(*to),
            _ => None,
        }
    }
}
