ghost use Rattle.std.specs.Prelude.{◌≡◌, ◌+◌, ◌≤◌, ◌++◌, ◌∷◌, [], true, IfOk, OnOk};
ghost use Rattle.arrayvec.specs.ArrayVec.{array_vec_len};
ghost use Rattle.dubp_atoms.specs.Letters.{is_sig};
ghost use Rattle.dubp_docs.specs.Spelling.{signed_text as signed_text_of, IsDoc};
ghost use Rattle.dubp_drafts.specs.Drafting.{given};
ghost use Rattle.dubp_drafts.specs.Sealing.{hash_as_signature, signature_of};

use crate::memory::push;
use arrayvec::ArrayVec;
use dubp_atoms::{Hash, Hashing, Key, Line, NoMemory, Sig, TextSink, put_bytes};
use dubp_docs::{Doc, signed_text};
use std::alloc::Global;

// Signs a document, and notes the verdict on the signature.
pub(crate) fn sign_document(
    alloc: Global,
    key: &Key,
    document: Doc,
    verdicts: &mut Vec<(Key, Hash, Sig)>,
) -> Result<Sig, NoMemory>
    requires { IsDoc document }
    ensures sig { IfOk result (λ sig. sig ≡ signature_of key.now (signed_text_of document)) }
    ensures verdicts { OnOk result (verdicts.new.items ≡ verdicts.old.items ++ given key.now (signed_text_of document) ∷ []) }
{
    let text = text_to_sign(alloc, document)?;
    sign_and_note(key, text.as_slice(), verdicts)
}

// What is signed of a document.
pub(crate) fn text_to_sign(alloc: Global, document: Doc) -> Result<Vec<u8>, NoMemory>
    requires { IsDoc document }
    ensures { IfOk result (λ text. text.items ≡ signed_text_of document) }
{
    signed_text(alloc, &document)
}

// Signs a message, and notes the verdict on the signature.
pub(crate) fn sign_and_note(
    key: &Key,
    message: &[u8],
    verdicts: &mut Vec<(Key, Hash, Sig)>,
) -> Result<Sig, NoMemory>
    ensures sig { IfOk result (λ sig. sig ≡ signature_of key.now message.now) }
    ensures verdicts { OnOk result (verdicts.new.items ≡ verdicts.old.items ++ given key.now message.now ∷ []) }
{
    let sig = sign(key, message);
    push(verdicts, (*key, Hash::of(message), sig))?;
    Ok(sig)
}

// The stand-in for the signature by a key of a message.
pub(crate) fn sign(key: &Key, message: &[u8]) -> Sig
    ensures { result ≡ signature_of key.now message.now }
{
    let mut hashing = Hashing::new();
    let Ok(()) = hashing.put(key.as_bytes());
    let Ok(()) = hashing.put(message);
    let mut text: Line = ArrayVec::new();
    put_as_signature(&hashing.hash(), &mut text);
    Sig::read(text.as_slice()).unwrap()
}

// Appends a hash as the text of a signature. `out` has 200 free places.
pub(crate) fn put_as_signature(hash: &Hash, out: &mut Line)
    requires { array_vec_len out.old + 200 ≤ 2048 }
    ensures text { out.new.items ≡ out.old.items ++ hash_as_signature hash.now }
    ensures room { array_vec_len out.new ≤ array_vec_len out.old + 88 }
    ensures valid { is_sig (hash_as_signature hash.now) ≡ true }
{
    let digits = hash.as_bytes();
    put_bytes(out, digits);
    put_bytes(out, &digits[..22]);
    put_bytes(out, b"==");
}
