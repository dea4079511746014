//! A law, as a function that does nothing and whose contract is the law.
ghost use Rattle.std.specs.Prelude.{◌≡◌};
ghost use Rattle.dubp_docs.specs.Spelling.{doc_text, IsDoc};
ghost use Rattle.dubp_docs.specs.declared.doc.Doc.{Doc as DocValue};

/// Two documents of one text are one.
pub fn documents_have_one_text()
    ensures { (d e : DocValue) → IsDoc d → IsDoc e → doc_text d ≡ doc_text e → d ≡ e }
{}
