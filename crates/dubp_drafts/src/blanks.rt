ghost use Rattle.std.specs.Prelude.{◌≡◌};
ghost use Rattle.dubp_atoms.specs.Same.{empty_stamp};
ghost use Rattle.dubp_atoms.specs.Spelling.{IsStamp};
ghost use Rattle.dubp_params.specs.Spelling.{IsParams};
ghost use Rattle.dubp_drafts.specs.Drafting.{blank_hash, blank_sig, currency, parameters};

use dubp_atoms::{Currency, Dec, Hash, Sig, Stamp};
use dubp_params::Params;

// The currency of every generated chain.
pub(crate) fn currency() -> Currency
    ensures { result ≡ currency }
{
    Currency::read(b"test_currency").unwrap()
}

// The parameters of every generated chain.
pub(crate) fn parameters() -> Params
    ensures value { result ≡ parameters }
    ensures valid { IsParams result }
{
    Params {
        c: Dec {
            mantissa: 1,
            places: 1,
        },
        dt: 600,
        ud0: 1000,
        sig_period: 300,
        sig_stock: 50,
        sig_window: 10_000,
        sig_validity: 400_000,
        sig_qty: 1,
        idty_window: 10_000,
        ms_window: 10_000,
        xpercent: Dec {
            mantissa: 5,
            places: 1,
        },
        ms_validity: 100_000,
        step_max: 3,
        median_time_blocks: 5,
        avg_gen_time: 60,
        dt_diff_eval: 10,
        percent_rot: Dec {
            mantissa: 67,
            places: 2,
        },
        ud_time0: 1_000_600,
        ud_reeval_time0: 1_006_000,
        dt_reeval: 6000,
    }
}

// The stamp of the empty text, on which everything before the first block is made.
pub(crate) fn empty_stamp() -> Stamp
    ensures value { result ≡ empty_stamp }
    ensures valid { IsStamp result }
{
    Stamp {
        number: 0,
        hash: Hash::read(
            b"E3B0C44298FC1C149AFBF4C8996FB92427AE41E4649B934CA495991B7852B855",
        ).unwrap(),
    }
}

// The signature of what is not signed yet.
pub(crate) fn blank_sig() -> Sig
    ensures { result ≡ blank_sig }
{
    let mut text = [b'A'; 88];
    text[86] = b'=';
    text[87] = b'=';
    Sig::read(&text).unwrap()
}

// The hash of what is not hashed yet.
pub(crate) fn blank_hash() -> Hash
    ensures { result ≡ blank_hash }
{
    Hash::read(&[b'0'; 64]).unwrap()
}
