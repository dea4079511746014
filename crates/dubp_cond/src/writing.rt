ghost use Rattle.std.specs.Prelude.{◌≡◌, ◌+◌, ◌≤◌, ◌++◌, length, codes, decimal};
ghost use Rattle.arrayvec.specs.ArrayVec.{array_vec_len};
ghost use Rattle.dubp_cond.specs.Conditions.{item_text, all_text, cond_text};
ghost use Rattle.dubp_cond.specs.View.{item_tree, all_tree};

use crate::tree::{All, Cond, Item};
use dubp_atoms::{Line, put_bytes};
use itoa::Buffer;

/// Appends a function: its word, what stands in its parentheses, and `)`.
pub fn put_function(word: &[u8], value: &[u8], out: &mut Line)
    requires { array_vec_len out.old + length (word.now ++ (value.now ++ codes ")")) ≤ 2048 }
    ensures text { out.new.items ≡ out.old.items ++ (word.now ++ (value.now ++ codes ")")) }
    ensures room { array_vec_len out.new ≡ array_vec_len out.old + length (word.now ++ (value.now ++ codes ")")) }
{
    put_bytes(out, word);
    put_bytes(out, value);
    put_bytes(out, b")");
}

/// Appends a function of a number.
pub fn put_number_function(word: &[u8], n: u64, out: &mut Line)
    requires { array_vec_len out.old + length (word.now ++ (decimal n ++ codes ")")) ≤ 2048 }
    ensures text { out.new.items ≡ out.old.items ++ (word.now ++ (decimal n ++ codes ")")) }
    ensures room { array_vec_len out.new ≡ array_vec_len out.old + length (word.now ++ (decimal n ++ codes ")")) }
{
    let mut buffer = Buffer::new();
    put_function(word, buffer.format(n).as_bytes(), out);
}

/// Appends the word that stands between two parts, or nothing before the first.
fn put_between(out: &mut Line, word: &[u8])
    requires { array_vec_len out.old + length word.now ≤ 2048 }
    ensures text { out.new.items ≡ out.old.items ++ word.now }
    ensures room { array_vec_len out.new ≡ array_vec_len out.old + length word.now }
{
    if !word.is_empty() {
        put_bytes(out, word);
    }
}

#[cycle(put)]
fn put_item(item: &Item, out: &mut Line)
    requires { array_vec_len out.old + length (item_text (item_tree item.now)) ≤ 2048 }
    ensures text { out.new.items ≡ out.old.items ++ item_text (item_tree item.now) }
    ensures room { array_vec_len out.new ≡ array_vec_len out.old + length (item_text (item_tree item.now)) }
{
    match item {
        Item::Sig(key) => put_function(b"SIG(", key.as_bytes(), out),
        Item::Xhx(hash) => put_function(b"XHX(", hash.as_bytes(), out),
        Item::Csv(seconds) => put_number_function(b"CSV(", *seconds, out),
        Item::Cltv(time) => put_number_function(b"CLTV(", *time, out),
        Item::Group(cond) => {
            put_bytes(out, b"(");
            put_alls(cond, out);
            put_bytes(out, b")");
        }
    }
}

#[tactic(auto, using(crate::proofs::Tails::joined_tail))]
#[cycle(put)]
fn put_items(all: &All, out: &mut Line)
    requires { array_vec_len out.old + length (all_text (all_tree all.now)) ≤ 2048 }
    ensures text { out.new.items ≡ out.old.items ++ all_text (all_tree all.now) }
    ensures room { array_vec_len out.new ≡ array_vec_len out.old + length (all_text (all_tree all.now)) }
{
    let mut before: &[u8] = b"";
    for item in &all.every {
        put_between(out, before);
        put_item(item, out);
        before = b" && ";
    }
}

#[tactic(auto, using(crate::proofs::Tails::joined_tail))]
#[cycle(put)]
fn put_alls(cond: &Cond, out: &mut Line)
    requires { array_vec_len out.old + length (cond_text cond.now) ≤ 2048 }
    ensures text { out.new.items ≡ out.old.items ++ cond_text cond.now }
    ensures room { array_vec_len out.new ≡ array_vec_len out.old + length (cond_text cond.now) }
{
    let mut before: &[u8] = b"";
    for all in &cond.any {
        put_between(out, before);
        put_items(all, out);
        before = b" || ";
    }
}

/// Appends the condition's text, whatever its numbers are. The text has at most 1,000 characters, and `out` has 1,000 free
/// places, of which it uses as many as the text has characters. It takes no memory.
pub fn put_cond(cond: &Cond, out: &mut Line)
    requires short { length (cond_text cond.now) ≤ 1000 }
    requires room { array_vec_len out.old + 1000 ≤ 2048 }
    ensures text { out.new.items ≡ out.old.items ++ cond_text cond.now }
    ensures room { array_vec_len out.new ≡ array_vec_len out.old + length (cond_text cond.now) }
{
    put_alls(cond, out);
}
