ghost use Rattle.std.specs.Prelude.{◌≡◌, length, IfOk};
ghost use Rattle.dubp_block.specs.Text.{IsBlock};

use crate::heads::states_its_head;
use crate::money::keeps_the_rules_on_money;
use crate::rules::lacks_its_verdict;
use dubp_atoms::{Hash, Items, Key, NoMemory, Sig, Stamp, Uid};
use dubp_block::{
    Block, MemberLine, block_hash, copy_block, inner_hash, put_block, read_block, size, stamp_of,
};
use std::alloc::{AllocError, Global};
use std::mem::forget;
use std::test::Fail;

// A block of number 0, whose hashes were computed by another program.
const FIRST_BLOCK: &[u8] = b"Version: 10\n\
Type: Block\n\
Currency: test_currency\n\
Number: 0\n\
PoWMin: 0\n\
Time: 1488987127\n\
MedianTime: 1488987127\n\
UnitBase: 0\n\
Issuer: 1111111111111111111111111111111111111111111\n\
IssuersFrame: 1\n\
IssuersFrameVar: 0\n\
DifferentIssuersCount: 0\n\
Parameters: 0.0488:86400:1000:432000:100:5259600:63115200:5:5259600:5259600:0.8:31557600:5:24:300:12:0.67:1488970800:1490094000:15778800\n\
MembersCount: 0\n\
Identities:\n\
Joiners:\n\
Actives:\n\
Leavers:\n\
Revoked:\n\
Excluded:\n\
Certifications:\n\
Transactions:\n\
InnerHash: 9880AB695793A40B4291DC5A5FB6FB082B901AFAD5E758E3B1B90168CFFB80B0\n\
Nonce: 0\n\
AAAAAAAAAAAAAAAAAAAAAAAAAAAAAAAAAAAAAAAAAAAAAAAAAAAAAAAAAAAAAAAAAAAAAAAAAAAAAAAAAAAAAA==\n";

const HASH: &[u8] = b"213EECFB0EEA61A655E64854E92BE5C3C4F3DE3D12DAD82F421E4DFA250CBB36";

// What is read of the first block, and its hashes.
fn is_first(block: &Block) -> bool {
    block.time == 1_488_987_127
        && matches!(&block.params, Some(params) if params.get().ud0 == 1000)
        && block_hash(block).as_bytes() == HASH
        && stamp_of(block).number == 0
}

// Whether the block has its inner hash, and is written and copied as it is.
fn is_kept_whole(alloc: Global, block: &Block) -> Result<bool, NoMemory>
    requires { IsBlock block.now }
{
    let hashed = inner_hash(alloc, block)? == block.inner_hash;
    let written = put_block(alloc, block)?.as_slice() == FIRST_BLOCK;
    let copied = copy_block(alloc, block)?;
    let same = copied.nonce == block.nonce;
    forget(copied);
    Ok(hashed && written && same)
}

const KEY: &[u8] = b"1111111111111111111111111111111111111111111";

const SIG: &[u8] =
    b"AAAAAAAAAAAAAAAAAAAAAAAAAAAAAAAAAAAAAAAAAAAAAAAAAAAAAAAAAAAAAAAAAAAAAAAAAAAAAAAAAAAAAA==";

// The line of the key when it joins.
fn member_line(key: Key) -> Option<MemberLine> {
    let stamp = Stamp {
        number: 5,
        hash: Hash::of(b""),
    };
    Some(MemberLine {
        key,
        sig: Sig::read(SIG)?,
        stamp,
        identity_stamp: stamp,
        uid: Uid::read(b"name")?,
    })
}

// The value so many times.
fn repeated<T: Copy>(alloc: Global, value: T, count: usize) -> Result<Items<T>, AllocError>
    ensures { IfOk result (λ items. length items ≡ count) }
{
    let values = vec![in alloc; value; count]?;
    Ok(Items::from_vec(values))
}

// The size of the block once it has 2 joiners and 3 keys excluded, and no other lines.
fn size_when_filled(alloc: Global, block: &mut Block) -> Option<u64> {
    let key = Key::read(KEY)?;
    block.joiners = repeated(alloc, member_line(key)?, 2).ok()?;
    block.excluded = repeated(alloc, key, 3).ok()?;
    block.identities = Items::new(alloc);
    block.actives = Items::new(alloc);
    block.leavers = Items::new(alloc);
    block.revoked = Items::new(alloc);
    block.certifications = Items::new(alloc);
    block.transactions = Items::new(alloc);
    Some(size(block))
}

#[test]
fn a_first_block_is_read_written_and_checked(rt: HostRuntime) -> Result<(), Fail> {
    let mut block = read_block(rt.alloc(), FIRST_BLOCK)?;
    let first = is_first(&block);
    let kept = is_kept_whole(rt.alloc(), &block);
    let signed = lacks_its_verdict(rt.alloc(), &block);
    let stated = states_its_head(rt.alloc(), &block);
    let paid = keeps_the_rules_on_money(rt.alloc(), &block);
    let lines = size_when_filled(rt.alloc(), &mut block);
    forget(block);
    assert!(rt; first && kept == Ok(true));
    assert!(rt; signed && stated && paid);
    assert!(rt; lines == Some(2));
    Ok(())
}
