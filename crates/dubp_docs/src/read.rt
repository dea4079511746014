ghost use Rattle.std.specs.Prelude.{◌≡◌, IfOk, IfSome, IsSome, OnErr, Some};
ghost use Rattle.dubp_lines.specs.Lines.{split};
ghost use Rattle.dubp_cond.specs.TextOf.{IsTextOf};
ghost use Rattle.dubp_docs.specs.Spelling.{doc_text, IsDoc};
ghost use Rattle.dubp_docs.specs.Reading.{doc_of};
ghost use Rattle.dubp_docs.specs.declared.doc.Doc.{Doc as DocValue};

use crate::doc::Doc;
use crate::reading::read_short;
use crate::transaction::{is_transaction, read_transaction};
use dubp_atoms::NoMemory;
use std::alloc::Global;

/// Passes over a transaction first, so that memory is asked for only where the text is a document's.
#[tactic(auto, unfolding(crate::specs::Reading::doc_of))]
fn read_lines(alloc: Global, text: &[u8]) -> Result<Option<Doc>, NoMemory>
    ensures exact { IfOk result (λ found. found ≡ doc_of (split text.now)) }
    ensures lacked { OnErr result (IsSome (doc_of (split text.now))) }
{
    if let Some(doc) = read_short(text) {
        return Ok(Some(doc));
    }
    if !is_transaction(text) {
        return Ok(None);
    }
    let Some(doc) = read_transaction(alloc, text)? else {
        return Ok(None);
    };
    Ok(Some(Doc::Transaction(doc)))
}

/// The document that this text is. None exactly where it is the text of none. `NoMemory` only where it is a document's text and
/// there is no room for the document.
pub fn read_doc(alloc: Global, text: &[u8]) -> Result<Option<Doc>, NoMemory>
    ensures found { IfOk result (λ found. IfSome found (λ d. IsDoc d × (text.now ≡ doc_text d))) }
    ensures only { (d : DocValue) → IsDoc d → text.now ≡ doc_text d → IfOk result (λ found. found ≡ Some d) }
    ensures lacked { OnErr result (IsTextOf IsDoc doc_text text.now) }
{
    read_lines(alloc, text)
}
