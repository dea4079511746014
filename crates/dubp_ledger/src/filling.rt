ghost use Rattle.std.specs.Prelude.{◌≡◌, ◌^◌, ◌<◌, ◌≤◌, All, IfOk, length, true};
ghost use Rattle.dubp_atoms.specs.Letters.{is_key, is_sig};
ghost use Rattle.dubp_atoms.specs.Spelling.{IsNumber};
ghost use Rattle.dubp_block.specs.Text.{IsBlock, IsVersion, size_of};
ghost use Rattle.dubp_chain.specs.Chains.{params as params_of};
ghost use Rattle.dubp_chain.specs.Heads.{heads_of};
ghost use Rattle.dubp_head.specs.Following.{MayFollow};
ghost use Rattle.dubp_forging.specs.Filled.{IsDraft, IsFilled, blank_sig};
ghost use Rattle.dubp_ledger.specs.Filling.{CanBeStated, IsStated, hashed, placed, stating};

use crate::ledger::Ledger;
use dubp_atoms::{Currency, Items, Key, NoMemory, Sig};
use dubp_block::{Block, block_hash, inner_hash_of};
use dubp_chain::Head;
use dubp_head::augment_over;
use dubp_params::Params;
use dubp_people_and_money::PeopleAndMoney;

/// Numbers of blocks are below this.
const NUMBERS: u64 = 1 << 40;

impl<T: PeopleAndMoney> Ledger<T> {
    /// The block that the draft becomes behind the chain, which is not empty: it keeps its issuer, its time and its lines other than
    /// Excluded, and gets who has to be excluded, and its header, with the values of the head of the chain with it. Where `X03`, `X04` or
    /// `X08` fails it has no dividend, and the base of the chain. InnerHash is right, Nonce is 0, and the signature is 86 `A` and `==`.
    ///
    /// The time and the lines of the draft are in range, its size is below 2^53, and it has at most 65,536 lines of Joiners; nothing else of it is
    /// read. The draft is dropped where there is no memory, which also stands for the 2^40th block.
    pub fn fill(&self, draft: Block) -> Result<Block, NoMemory>
        requires some { 1 ≤ length self.now.chain }
        requires draft { IsDraft draft }
        requires size { size_of draft < 2 ^ 53 }
        requires joiners { length draft.joiners ≤ 65536 }
        ensures filled { IfOk result (IsFilled self.now.chain draft) }
        ensures valid { IfOk result IsBlock }
    {
        let number = self.len() as u64;
        if number >= NUMBERS {
            return Err(NoMemory);
        }
        self.laws();
        let last = self.head().unwrap();
        let first = self.tables().first().unwrap();
        let excluded = self.tables().kicked(self.alloc())?;
        let time = draft.time;
        let block = place(draft, first.currency, number, &last, excluded);
        let head = self.stated_head(&block, &first.params)?;
        Ok(state(block, time, &head))
    }

    // What the header of the block states: its head, or where it passes a limit, that without a dividend.
    fn stated_head(&self, block: &Block, params: &Params) -> Result<Head, NoMemory>
        requires some { 1 ≤ length self.now.chain }
        requires valid { IsBlock block.now }
        requires params { params.now ≡ params_of self.now.chain }
        requires may { MayFollow 0 (heads_of self.now.chain) block.now }
        requires joiners { length block.now.joiners ≤ 65536 }
        ensures stated { IfOk result (IsStated self.now.chain block.now) }
        ensures range { IfOk result CanBeStated }
    {
        let members = self.tables().members_with(self.alloc(), block)?;
        match augment_over(self.heads(), params, block, &block_hash(block), members) {
            Ok(head) => Ok(head),
            Err(passed) => Ok(passed.head),
        }
    }
}

// The draft as the block of this number behind the last head, with these exclusions, at time 0 and with an empty header.
fn place(draft: Block, currency: Currency, number: u64, last: &Head, excluded: Vec<Key>) -> Block
    requires draft { IsDraft draft }
    requires version { IsVersion last.now.version }
    requires some { 1 ≤ number }
    requires excluded { All (λ key. is_key key ≡ true) excluded.items }
    requires number { number < 2 ^ 40 }
    ensures block { result ≡ placed currency number last.now excluded.items draft }
    ensures valid { IsBlock result }
{
    // each of these texts is in range by its type
    currency.as_bytes();
    draft.issuer.as_bytes();
    draft.inner_hash.as_bytes();
    last.hash.as_bytes();
    last.issuer.as_bytes();
    let mut block = draft;
    block.version = last.version;
    block.currency = currency;
    block.number = number;
    block.pow_min = 0;
    block.time = 0;
    block.median_time = 0;
    block.dividend = None;
    block.unit_base = 0;
    block.frame = 0;
    block.frame_var = 0;
    block.issuers = 0;
    block.previous = Some((last.hash, last.issuer));
    block.params = None;
    block.members = 0;
    block.excluded = Items::from_vec(excluded);
    block.nonce = 0;
    block.sig = blank();
    block
}

// The block with the values of the head, the time and its inner hash.
fn state(block: Block, time: u64, head: &Head) -> Block
    requires block { IsBlock block }
    requires time { IsNumber time }
    requires head { CanBeStated head.now }
    ensures block { result ≡ hashed (stating time head.now block) }
    ensures valid { IsBlock result }
{
    let mut block = block;
    block.pow_min = head.pow_min;
    block.time = time;
    block.median_time = head.median_time;
    block.dividend = head.ud;
    block.unit_base = head.unit_base as u64;
    block.frame = head.frame;
    block.frame_var = head.frame_var;
    block.issuers = head.issuers;
    block.members = head.members;
    block.inner_hash = inner_hash_of(&block);
    block
}

// What stands where there is no signature yet.
fn blank() -> Sig
    ensures value { result ≡ blank_sig }
    ensures valid { is_sig result ≡ true }
{
    let mut text = [b'A'; 88];
    text[86] = b'=';
    text[87] = b'=';
    Sig::read(&text).unwrap()
}
