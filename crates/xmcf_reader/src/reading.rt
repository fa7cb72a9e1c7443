//! The reading of a text.

ghost use Rattle.std.specs.Prelude.{◌≡◌, ◌<◌, ◌^◌, ◌⊎◌, None, Some, IfErr, IfOk, length};
ghost use Rattle.xmcf_reader.specs.Draft.{empty_draft};
ghost use Rattle.xmcf_reader.specs.Faults.{cut, draft_from, draft_of, faults_from, xmcf_fault};
ghost use Rattle.xmcf_reader.specs.lemmas.Readings.{IsReadingOf};
ghost use Rattle.xmcf_reader.specs.declared.fault.ReadFault.TheVariants as fault;

use crate::draft::Draft;
use crate::fault::ReadFault;
use crate::tokens::{Next, Tokens};
use crate::tree::Tree;
use std::alloc::Global;
use std::str;

/// The draft that the tokens of a text give.
fn read_tokens(alloc: Global, text: &[u8]) -> Result<Draft, ReadFault>
    requires { length text.now < 2 ^ 32 }
    ensures { IsReadingOf result (faults_from empty_draft (cut 0 0 text.now)) (draft_from empty_draft (cut 0 0 text.now)) }
{
    let mut tokens = Tokens::new(text);
    let mut tree = Tree::new(alloc);
    loop {
        match tokens.next() {
            Next::Item(token, at) => tree.take(token, at)?,
            Next::Rest(at, byte, broken) => return Err(tree.broken(at, byte, broken)),
            Next::End(at) => {
                tree.finish(at)?;
                return Ok(Draft::new(tree.into_entries()));
            }
        }
    }
}

/// Reads an XM_CF text: its draft, or its first fault.
pub fn read_xmcf(alloc: Global, text: &[u8]) -> Result<Draft, ReadFault>
    // Called with a text of fewer than 2^32 bytes.
    requires { length text.now < 2 ^ 32 }
    // A draft comes only where the text has no fault, and is the draft of its tokens; a fault is the text's first one,
    // by place and then by kind, or out of memory.
    ensures draft { IfOk result (λ draft. (xmcf_fault text.now ≡ None) × (draft ≡ draft_of text.now)) }
    ensures refused { IfErr result (λ found. (found ≡ fault.Memory) ⊎ (xmcf_fault text.now ≡ Some found)) }
{
    match str::from_utf8(text) {
        Ok(_) => read_tokens(alloc, text),
        Err(error) => Err(ReadFault::NotText {
            at: error.valid_up_to(),
        }),
    }
}
